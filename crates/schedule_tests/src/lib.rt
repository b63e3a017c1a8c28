// Texts that each show one rule of the form, with what the form checker prints for them.
#![tactic(auto)]

use std::alloc::{AllocError, Global};

// Whether the form checker prints just `expected` for `text`.
pub fn prints(heap: Global, text: &[u8], expected: &str) -> Result<bool, AllocError> {
    let account = formreport::account(heap, text)?;
    Ok(account.as_str() == expected)
}

#[cfg(test)]
mod tests {
    use super::*;
    use std::test::Fail;

    #[test]
    fn lines_missing_and_extra(rt: HostRuntime) -> Result<(), Fail> {
        let heap = rt.alloc();
        assert!(rt; prints(heap, b"", "bad 1 31\n")?);
        let one = "sizes 1 1 1\nevents 1\n6 step card 0\nbad 7 31\n";
        assert!(rt; prints(heap, b"3\n1\n1\n1\n1\ns 0\ns 0\n", one)?);
        let two = "sizes 1 1 1\nevents 2\n6 step card 0\nbad 7 31\n";
        assert!(rt; prints(heap, b"3\n1\n1\n1\n2\ns 0\n", two)?);
        assert!(rt;
            prints(
                heap,
                b"3\n1\n1\n1\n0\nx",
                "sizes 1 1 1\nevents 0\nbad 6 31\n",
            )?
        );
        assert!(rt;
            prints(
                heap,
                b"3\n1\n1\n1\n1\ns 0",
                "sizes 1 1 1\nevents 1\nbad 6 31\n",
            )?
        );
        Ok(())
    }

    #[test]
    fn numbers_and_spaces(rt: HostRuntime) -> Result<(), Fail> {
        let heap = rt.alloc();
        let bad = "sizes 1 1 1\nevents 1\nbad 6 31\n";
        assert!(rt; prints(heap, b"3\n1\n1\n1\n1\ns 00\n", bad)?);
        assert!(rt; prints(heap, b"3\n1\n1\n1\n1\ns +0\n", bad)?);
        assert!(rt; prints(heap, b"3\n1\n1\n1\n1\ns  0\n", bad)?);
        assert!(rt; prints(heap, b"3\n1\n1\n1\n1\ns 0 \n", bad)?);
        assert!(rt; prints(heap, b"3\n1\n1\n1\n1\nw 0 0 65536\n", bad)?);
        let good = "sizes 1 1 1\nevents 1\n6 write card 0 toggle 0 node 65535\nwhole\n";
        assert!(rt; prints(heap, b"3\n1\n1\n1\n1\nw 0 0 65535\n", good)?);
        Ok(())
    }

    #[test]
    fn letters_counts_and_sizes(rt: HostRuntime) -> Result<(), Fail> {
        let heap = rt.alloc();
        let letter = "sizes 1 1 1\nevents 2\n6 step card 0\nbad 7 31\n";
        assert!(rt; prints(heap, b"3\n1\n1\n1\n2\ns 0\nq 0\n", letter)?);
        assert!(rt; prints(heap, b"3\n1\n1\n1\n2001\ns 0\n", "sizes 1 1 1\nbad 5 31\n")?);
        assert!(rt; prints(heap, b"4\n1\n1\n1\n1\n0\n", "bad 1 31\n")?);
        assert!(rt; prints(heap, b"3\n9\n1\nx\n", "bad 4 31\n")?);
        assert!(rt; prints(heap, b"3\n9\n1\n1\nzzz\n", "sizes 9 1 1\nbad 5 31\n")?);
        assert!(rt; prints(heap, b"3\n8\n32\n8\n0\n", "sizes 8 32 8\nevents 0\nwhole\n")?);
        Ok(())
    }

    #[test]
    fn the_longest_text(rt: HostRuntime) -> Result<(), Fail> {
        let heap = rt.alloc();
        let longest = vec![in heap; 0u8; 65535]?;
        assert!(rt; prints(heap, longest.as_slice(), "bad 1 31\n")?);
        let longer = vec![in heap; 0u8; 65536]?;
        assert!(rt; prints(heap, longer.as_slice(), "bad 0 32\n")?);
        Ok(())
    }
}
