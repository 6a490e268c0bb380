//! Standard output.

use crate::progress::Progress;
use std::io::{self, Write};

/// Standard output. What is written to it takes the place of the line that shows the progress.
#[derive(Drop)]
pub struct Screen<'a> {
    rt: &'a HostRuntime,
    progress: &'a mut Progress,
}

impl<'a> Screen<'a> {
    /// Returns standard output, with the progress that is shown beside it.
    pub fn new(rt: &'a HostRuntime, progress: &'a mut Progress) -> Screen<'a> {
        Screen { rt, progress }
    }
}

impl Write for Screen<'_> {
    fn write(&mut self, bytes: &[u8]) -> io::Result<usize> {
        self.progress.clear(self.rt);
        io::writer(self.rt).write(bytes)
    }

    fn flush(&mut self) -> io::Result<()> {
        Ok(())
    }
}
