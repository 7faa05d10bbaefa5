//! Which library this is.

/// `xvsh_version`: 1,000,000 times the first number of the version, 1,000 times the second, and the third.
#[unsafe(no_mangle)]
pub extern "C" fn xvsh_version() -> u32 {
    3_000
}
