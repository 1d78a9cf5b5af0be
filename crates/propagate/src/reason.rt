// Reasons why a name cannot be opened that no call of the system has given. Their texts are the C library's, by its numbers.
use std::io;

#[derive(Clone, Copy)]
pub enum Reason {
    InvalidArgument = 22,
    NameTooLong = 36,
    NotText = 84,
}

impl From<Reason> for io::Error {
    fn from(reason: Reason) -> io::Error {
        io::Error::from_raw_os_error(reason as i32)
    }
}
