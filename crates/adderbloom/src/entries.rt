// The account lent by a host, and its entries in place. A refused entry leaves it as it was.
ghost use Rattle.std.specs.Prelude.{◌≡◌};
ghost use Rattle.refusal.specs.definitions.Refusal.{answer_of};
ghost use Rattle.account.specs.definitions.Account.{opened, loss_entered};
ghost use Rattle.adderbloom.specs.definitions.Entry.{flags_entered};

use account::Account;
use refusal::Refusal;

// The account of a new order, from this number on.
pub fn lr800_account_open(a: &mut Account, start: u32)
    ensures { a.new ≡ opened start }
{
    *a = Account::opened(start);
}

// A frame by its flag bytes.
#[tactic(auto, unfolding(crate::specs::definitions::Entry::flags_entered))]
fn enter_flags(a: &mut Account, got: u32, flags: &[u8]) -> Result<(), Refusal>
    ensures { record { refusal = answer_of result; account = a.new } ≡ flags_entered a.old got flags.now }
{
    let flags = flags.as_array().ok_or(Refusal::Flags)?;
    let tallies = a.tallies_of(got, flags);
    a.enter(got, tallies)
}

// A frame by its flag bytes. Refused: 4 not 384 of them, 10 late, 11 a limit is passed, 12 some that are tallied are above 3.
pub fn lr800_account_enter(a: &mut Account, got: u32, flags: &[u8]) -> u32
    ensures { record { refusal = result; account = a.new } ≡ flags_entered a.old got flags.now }
{
    refusal::number(enter_flags(a, got, flags))
}

// A loss, a frame without lock. Refused: 10 late, 11 a limit is passed.
pub fn lr800_account_lose(a: &mut Account, got: u32) -> u32
    ensures { record { refusal = result; account = a.new } ≡ loss_entered a.old got }
{
    refusal::number(a.lose(got))
}
