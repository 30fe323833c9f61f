//! Tests of messages in words and of bytes in hexadecimal: the edges of the text forms.
#![tactic(auto)]

#[cfg(test)]
mod tests {
    use line_text::reading::{read, words};
    use line_text::showing::show;
    use std::alloc::Global;
    use std::process::Abort;
    use std::test::Fail;
    use text_forms::hexadecimal::{bytes, is_hexadecimal, show_bytes};
    use text_forms::number::number;

    // What a line comes to: its message in words again, or why it is not understood.
    fn again(heap: Global, line: &str) -> Result<String, Fail> {
        let given = words(heap, line)?;
        let mut out = String::new(heap);
        match read(given.as_slice()) {
            Ok(message) => show(&message, &mut out)?,
            Err(fault) => write!(out, "{fault}")?,
        }
        Ok(out)
    }

    fn same(rt: &impl Abort, heap: Global, line: &str, answer: &str) -> Result<(), Fail> {
        let came = again(heap, line)?;
        assert!(rt; came.as_str() == answer, "{}", line);
        Ok(())
    }

    #[test]
    fn numbers(rt: HostRuntime) {
        assert_eq!(rt; number("0"), Some(0));
        assert_eq!(rt; number("4294967295"), Some(4294967295));
        for text in ["", "4294967296", "00", "01", "+1", "-1", "1x", " 1"] {
            assert_eq!(rt; number(text), None, "{}", text);
        }
    }

    #[test]
    fn messages_read_back(rt: HostRuntime) -> Result<(), Fail> {
        let heap = rt.alloc();
        for line in [
            "MPayload sender=1 id=1 department=sales kind=claim hour=21 slot=0 value=0 set=1,2",
            "MPropose sender=3 id=65 department=9 kind=0 hour=23 slot=11 value=999999 set=none timestamp=1568",
            "MProposeAck sender=2 id=65 timestamp=4294967295",
            "MConsensus sender=1 id=1 timestamp=2 ballot=65535",
            "MRecAck sender=3 id=1 timestamp=1 phase=recover-p accepted=0 ballot=5",
            "MPromises sender=1 detached=none pairs=none",
            "MPromises sender=1 detached=1-5,9,64-65,1568 pairs=1:3,65:4",
            "MPromises sender=1 detached=1-1600 pairs=224:1568",
        ] {
            same(&rt, heap, line, line)?;
        }
        same(
            &rt,
            heap,
            "  MRec  sender=2   id=1 ballot=5 ",
            "MRec sender=2 id=1 ballot=5",
        )?;
        same(
            &rt,
            heap,
            "MPromises sender=1 detached=9,1-4,5 pairs=none",
            "MPromises sender=1 detached=1-5,9 pairs=none",
        )
    }

    #[test]
    fn faults(rt: HostRuntime) -> Result<(), Fail> {
        let heap = rt.alloc();
        same(&rt, heap, "", "no message has this name")?;
        same(&rt, heap, "Commit sender=1", "no message has this name")?;
        same(&rt, heap, "MCommit sender=1 id=65", "expected timestamp=")?;
        same(
            &rt,
            heap,
            "MCommit id=65 sender=1 timestamp=1",
            "expected sender=",
        )?;
        same(&rt, heap, "MCommit sender=1 sender=1 id=65", "expected id=")?;
        same(
            &rt,
            heap,
            "MCommit sender=1 id=65 timestamp=1 ballot=1",
            "words after the last field",
        )?;
        same(
            &rt,
            heap,
            "MRec sender=1 id= ballot=1",
            "id has no such value",
        )?;
        same(
            &rt,
            heap,
            "MPromises sender=1 detached=1-1601 pairs=none",
            "detached has no such value",
        )?;
        same(
            &rt,
            heap,
            "MPromises sender=1 detached=0 pairs=none",
            "detached has no such value",
        )?;
        same(
            &rt,
            heap,
            "MPromises sender=1 detached=none pairs=1:2:3",
            "pairs has no such value",
        )
    }

    #[test]
    fn hexadecimal(rt: HostRuntime) -> Result<(), Fail> {
        let heap = rt.alloc();
        assert!(rt; is_hexadecimal("00 fF9a") && !is_hexadecimal("0g"));
        assert!(rt; bytes(heap, "0 0 0")?.is_none());
        let given = bytes(heap, "00ff9A 10 07")?.ok_or("not hexadecimal")?;
        let mut out = String::new(heap);
        show_bytes(given.as_slice(), &mut out)?;
        assert!(rt; out.as_str() == "00ff9a10 07");
        Ok(())
    }
}
