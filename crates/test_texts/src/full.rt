//! The words for what was full.

use kernel_model::Full;
use result_json::full_word;

#[test]
fn what_was_full_has_its_word(rt: HostRuntime) {
    assert_eq!(&rt; full_word(Full::Procs), "procs");
    assert_eq!(&rt; full_word(Full::Open), "open");
    assert_eq!(&rt; full_word(Full::Fds), "descriptors");
    assert_eq!(&rt; full_word(Full::Files), "files");
    assert_eq!(&rt; full_word(Full::Size), "size");
    assert_eq!(&rt; full_word(Full::Memory), "memory");
}
