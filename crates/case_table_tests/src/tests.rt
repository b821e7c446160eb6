use case_table::table::{Trying, run_table};
use std::alloc::{AllocError, Global};
use std::test::Fail;

// What a case is tried by, and what on, one after the other.
struct Joining;

impl Trying for Joining {
    fn tried(heap: Global, what: &str, on: &str) -> Result<String, AllocError> {
        format!(in heap; "{what}{on}")
    }
}

#[test]
fn what_went_otherwise_is_told(rt: HostRuntime) -> Result<(), Fail> {
    for (table, told) in [
        ("", "0 cases, 0 otherwise than expected\n"),
        (
            "a\tas expected\tab\tb\n",
            "1 cases, 0 otherwise than expected\n",
        ),
        (
            "a\tfirst\tac\tb\na\tsecond\tab\tb\na\tthird\t\tb",
            "a\tfirst\tac\tb: found ab\na\tthird\t\tb: found ab\n3 cases, 2 otherwise than expected\n",
        ),
        // an empty line, and one that ends in a carriage return and a line feed
        (
            "\na\r\n",
            "a: found a\n2 cases, 1 otherwise than expected\n",
        ),
    ] {
        let found = run_table::<Joining>(rt.alloc(), table)?;
        assert_eq!(rt; found.as_str(), told, "of {table}");
    }
    Ok(())
}
