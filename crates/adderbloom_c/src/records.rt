// What stands at a place of a capture, as numbers.
ghost use Rattle.std.specs.Prelude.{◌≡◌};
ghost use Rattle.capture.specs.definitions.Capture.{read_at, wanted};
ghost use Rattle.adderbloom.specs.definitions.Record.{record_of};

// What stands at a place of a capture; any place is lawful, also one beyond the end.
#[unsafe(no_mangle)]
pub extern "C" fn lr800_read(capture: &[u8], place: usize) -> adderbloom::records::Record
    ensures { result ≡ record_of (read_at capture.now place) place }
{
    adderbloom::records::lr800_read(capture, place)
}

// How many bytes of a record to ask for, by those that are there.
#[unsafe(no_mangle)]
pub extern "C" fn lr800_wanted(piece: &[u8]) -> usize
    ensures { result ≡ wanted piece.now }
{
    adderbloom::records::lr800_wanted(piece)
}
