// What a rig's host program calls; `adderbloom_c` gives it to C under the same names.
#![tactic(auto)]

pub mod captures;
pub mod entries;
pub mod hunts;
pub mod records;
pub mod runs;
pub mod test_traffic;

ghost use Rattle.framing.specs.definitions.Places.{base};
ghost use Rattle.framing.specs.definitions.Send.{Sends};
ghost use Rattle.framing.specs.definitions.Receive.{Receives};
ghost use Rattle.std.specs.Prelude.{◌≡◌, not, eqb};
ghost use Rattle.account.specs.definitions.Account.{verdict, verdict_number};

use account::{Account, Tallies};

// A frame sent: 5,280 bytes of lanes in, 6,144 symbols out, 2,880 bytes of store kept. Refusals 1, 2, 3 change nothing.
pub fn lr800_send(input: &[u8], store: &mut [u8], output: &mut [u8]) -> u32
    ensures { Sends base input.now store.old output.old result store.new output.new }
{
    refusal::number(framing::send(input, store, output))
}

// A frame received: 6,144 symbols in, 5,280 bytes of lanes and 384 flag bytes out, 2,880 bytes of store kept. Refusals 1 to 5 change nothing.
pub fn lr800_receive(input: &[u8], store: &mut [u8], output: &mut [u8], flags: &mut [u8]) -> u32
    ensures { Receives base input.now store.old output.old flags.old
        result store.new output.new flags.new }
{
    refusal::number(framing::receive(input, store, output, flags))
}

// The verdict on a run's numbers: 0 not measured, 1 PASS, 2 FAIL. A run that was stopped is not measured, whatever its numbers.
pub fn lr800_verdict(
    asked: u32,
    allowed: u32,
    accepted: u64,
    missing: u64,
    clean: u64,
    one: u64,
    two: u64,
    flagged: u64,
    stopped: u32,
) -> u32
    ensures { result ≡ verdict_number (verdict asked allowed (record {
      expected = 0;
      start = 0;
      accepted = accepted;
      missing = missing;
      words = record { clean = clean; one = one; two = two; flagged = flagged };
    }) (not (eqb stopped 0))) }
{
    let account = Account {
        expected: 0,
        start: 0,
        accepted,
        missing,
        words: Tallies {
            clean,
            one,
            two,
            flagged,
        },
    };
    u32::from(account.verdict(asked, allowed, stopped != 0))
}
