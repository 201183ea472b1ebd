// Test traffic: the state found directly, a frame by its number or from a kept state, and the checker of recovered frames.
ghost use Rattle.std.specs.Prelude.{◌≡◌};
ghost use Rattle.traffic.specs.definitions.Register.{state_after};
ghost use Rattle.traffic.specs.definitions.Traffic.{Generates, Continues};
ghost use Rattle.traffic.specs.definitions.Checker.{Checks};

// The state after so many bits from all ones.
pub fn lr800_traffic_state(bits: u64) -> u32
    ensures { result ≡ state_after bits }
{
    traffic::state_after(bits)
}

// The lanes of a frame, by its number from the fresh start. Refused: 3, the output is not 5,280 bytes.
pub fn lr800_traffic_frame(frame: u32, output: &mut [u8]) -> u32
    ensures { Generates frame output.old result output.new }
{
    refusal::number(traffic::frame(frame, output))
}

// The lanes of the frame from a kept state on, and the state after it. Refused: 3, the output is not 5,280 bytes.
pub fn lr800_traffic_next(state: &mut u32, output: &mut [u8]) -> u32
    ensures { Continues state.old output.old result state.new output.new }
{
    refusal::number(traffic::next_frame(state, output))
}

// How many bits of each lane of a recovered frame are wrong. Refused: 1, the lanes are not 5,280 bytes; 3, there are not 32 counts.
pub fn lr800_traffic_check(frame: u32, lanes: &[u8], wrong: &mut [u32]) -> u32
    ensures { Checks frame lanes.now wrong.old result wrong.new }
{
    refusal::number(traffic::check(frame, lanes, wrong))
}
