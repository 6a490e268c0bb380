//! Writing a line.

ghost use Rattle.std.specs.Prelude.{◌≡◌, ◌≢◌, ◌⊎◌};
ghost use Rattle.std.specs.Io.KnownBytes.{Appends};

use std::io::Write;

/// Writes a line. Returns its exit status, or 2 if the line cannot be written.
pub fn say<O: Write>(output: &mut O, line: &str, status: u8) -> u8
    ensures status { (result ≡ status) ⊎ (result ≡ 2) }
    ensures written { result ≢ 2 → Appends (O.contents output.old) (O.contents output.new) line.now }
{
    match output.write_all(line.as_bytes()) {
        Ok(()) => status,
        Err(_) => 2,
    }
}
