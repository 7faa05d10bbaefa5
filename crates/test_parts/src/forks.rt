//! Scripts that fork as much as there may be, and more.

use room_model::has_few_forks;
use script_load::load;
use std::test::Fail;

// Lines, and how many of each are the most that fork little: a line forks one process, a `;` and an `&` one more, and a `|` two, and 62
// may be forked.
const ROWS: &[(&str, usize)] = &[
    ("echo a\n", 62),
    ("echo a > f\n", 62),
    ("cd f\n", 62),
    ("(echo a\n", 62),
    ("echo a; echo b\n", 31),
    ("echo a &\n", 31),
    ("echo a | cat\n", 20),
    ("echo a | cat | wc\n", 12),
    ("echo a; echo b; echo c | cat\n", 12),
    ("(echo a; echo b) | cat > f &\n", 12),
];

#[test]
fn scripts_fork_what_is_counted(rt: HostRuntime) -> Result<(), Fail> {
    for (line, most) in ROWS {
        let mut text = Vec::new(rt.alloc());
        for _ in 0..*most {
            text.extend_from_slice(line.as_bytes())?;
        }
        let script = load(rt.alloc(), text.as_slice())?;
        assert!(&rt; has_few_forks(&script));
        text.extend_from_slice(line.as_bytes())?;
        let script = load(rt.alloc(), text.as_slice())?;
        assert!(&rt; !has_few_forks(&script));
    }
    Ok(())
}
