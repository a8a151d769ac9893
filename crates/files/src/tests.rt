// What no clause says: how many arguments are counted. A program is started with none, one, two, a hundred and 70,000.
use crate::{arg_count, has_arg};
use std::env::FillError;
use std::rt::Env;

// A program that was started with this many arguments, its own name aside. The last one is longer than any buffer.
#[derive(Drop)]
struct Started(usize);

impl Env for Started {
    fn arg(&self, i: usize, _buf: &mut [u8]) -> Result<usize, FillError> {
        if i < self.0 {
            Ok(0)
        } else if i == self.0 {
            Err(FillError::TooLong)
        } else {
            Err(FillError::NotPresent)
        }
    }

    fn var(&self, _name: &str, _buf: &mut [u8]) -> Result<usize, FillError> {
        Err(FillError::NotPresent)
    }

    fn var_at(&self, _i: usize, _buf: &mut [u8]) -> Result<usize, FillError> {
        Err(FillError::NotPresent)
    }
}

#[test]
fn counts_arguments(rt: HostRuntime) {
    for n in [0, 1, 2, 100, 70_000] {
        let started = Started(n);
        assert_eq!(rt; arg_count(&started), n);
        assert!(rt; has_arg(&started, n));
        assert!(rt; !has_arg(&started, n + 1));
    }
}
