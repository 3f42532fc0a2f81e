//! How many arguments stand behind a line's first word.

/// What so many arguments give. Where there are others it is a fault of a word.
macro_rules! with_args {
    ($args:ident, [$($arg:ident),*] => $given:expr) => {
        match $args {
            &[$($arg),*] => $given,
            _ => Err(vg_script_words::Stop::Fault(vg_script_words::Kind::Word)),
        }
    };
}

pub(crate) use with_args;
