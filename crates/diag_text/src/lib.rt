//! Diagnostics: an error of a source file, where it stands, and the line that is printed for it.
#![tactic(auto)]

mod diag;
mod order;

pub use diag::{Diag, line, lines};
pub use order::{in_order, printed_lines};

#[cfg(test)]
mod tests {
    use super::*;
    use dep_key::{Path, Text};
    use std::alloc::{AllocError, Global};
    use std::test::Fail;

    fn error_at(alloc: Global, path: &str, line: u32, column: u32) -> Result<Diag, AllocError> {
        Ok(Diag {
            path: Path::from_str(alloc, path)?,
            line,
            column,
            text: Text::from_slice(alloc, b"form not built yet")?,
        })
    }

    #[test]
    fn lines_have_place_and_text(rt: HostRuntime) -> Result<(), Fail> {
        let alloc = rt.alloc();
        let first = line(alloc, &error_at(alloc, "sub/c.swift", 1, 20)?)?;
        assert_eq!(rt;
            first.as_slice(),
            b"sub/c.swift:1:20: error: form not built yet\n".as_slice()
        );
        let mut diags = Vec::new(alloc);
        diags.push(error_at(alloc, "sub/c.swift", 1, 20)?)?;
        diags.push(error_at(alloc, "", 7, 7)?)?;
        let both = lines(alloc, &diags)?;
        assert_eq!(rt;
            both.as_slice(),
            b"sub/c.swift:1:20: error: form not built yet\nerror: form not built yet\n".as_slice()
        );
        Ok(())
    }

    #[test]
    fn lines_are_ordered_and_equal_ones_printed_once(rt: HostRuntime) -> Result<(), Fail> {
        let alloc = rt.alloc();
        let mut diags = Vec::new(alloc);
        diags.push(error_at(alloc, "b.swift", 1, 1)?)?;
        diags.push(error_at(alloc, "a.swift", 10, 2)?)?;
        diags.push(error_at(alloc, "b.swift", 1, 1)?)?;
        diags.push(error_at(alloc, "a.swift", 2, 10)?)?;
        let printed = printed_lines(alloc, diags)?;
        assert_eq!(rt;
            printed.as_slice(),
            b"a.swift:2:10: error: form not built yet\na.swift:10:2: error: form not built yet\nb.swift:1:1: error: form not built yet\n".as_slice()
        );
        Ok(())
    }
}
