//! Output of which no error is told.
use std::fmt::Display;
use std::io;

/// Standard output of a program that is judged by what it has written: what cannot be written is left out, no error is told, and the
/// program goes on, as `rows` does.
#[derive(Clone, Copy)]
pub struct Untold<R>(pub R);

impl<R: Print> Print for Untold<R> {
    fn print<D: Display + Drop>(&self, value: D) -> io::Result<()> {
        let _ = self.0.print(value);
        Ok(())
    }

    fn println<D: Display + Drop>(&self, value: D) -> io::Result<()> {
        let _ = self.0.println(value);
        Ok(())
    }

    fn write_all(&self, bytes: &[u8]) -> io::Result<()> {
        let _ = self.0.write_all(bytes);
        Ok(())
    }
}
