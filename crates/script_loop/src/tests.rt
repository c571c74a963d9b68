use crate::{Ending, LINE_LIMIT, Machine, run};
use n32_outside::{CallList, MemSink, MemSource, OutFault, Sink};
use n32_values::{Bytes, NoMemory};
use std::alloc::Global;
use std::test::Fail;

/// Answers a line with its number and its length.
#[derive(Drop)]
struct Lengths;

impl Machine for Lengths {
    ghost use Rattle.std.specs.Prelude.{refl};
    ghost use Rattle.std.proofs.Common.{◌≡◌, ◌∙◌};

    ghost ready = { λ _. Unit {0} };

    ghost gives = { λ _ _ _ _ _. Unit {0} };

    ghost gives_up = { λ _ _ _ _. Unit {0} };

    ghost later = { λ old new. new ≡ old };

    ghost stays = { λ _. refl };

    ghost goes_on = { λ a b c first then. then ∙ first };

    fn answer(&mut self, alloc: Global, number: u64, line: &[u8]) -> Result<Bytes, NoMemory> {
        let length = line.len();
        let text = format!(in alloc; "{number} {length}")?;
        Ok(Bytes::from_vec(text.into_bytes()))
    }
}

/// Takes at most three bytes at a time.
#[derive(Drop)]
struct Narrow {
    inner: MemSink,
}

impl Sink for Narrow {
    ghost use Rattle.std.specs.Prelude.{Some};
    ghost use Rattle.n32_outside.specs.MemoryViews.{sink_written, sink_faults};

    ghost written = { λ s. Some (sink_written s.inner) };

    ghost faults = { λ s. sink_faults s.inner };

    fn write(&mut self, piece: &[u8]) -> Result<usize, OutFault> {
        self.inner.write(&piece[..piece.len().min(3)])
    }
}

fn calls(alloc: Global, numbers: &[u64]) -> Result<CallList, Fail> {
    let mut list = CallList::new(alloc);
    for number in numbers {
        list.push(*number).ok().ok_or("memory")?;
    }
    Ok(list)
}

#[test]
fn lines_are_answered_in_order_until_the_run_ends(rt: HostRuntime) -> Result<(), Fail> {
    let alloc = rt.alloc();
    for (script, reads, writes, wanted, output) in [
        ("", [9], [9], Ending::Done, ""),
        ("ab\n\nc d", [9], [9], Ending::Done, "1 2\n3 3\n"),
        (" \t\r\nx\n", [9], [9], Ending::Done, "2 1\n"),
        ("ab\nc", [1], [9], Ending::ReadFault, "1 2\n"),
        ("ab\nc\n", [9], [3], Ending::WriteFault, "1 2\n2 1"),
    ] {
        let bytes = Bytes::from_slice(alloc, script.as_bytes())
            .ok()
            .ok_or("memory")?;
        let mut source = MemSource::new(bytes, calls(alloc, &reads)?);
        let mut sink = Narrow {
            inner: MemSink::new(alloc, calls(alloc, &writes)?),
        };
        assert!(rt;
            run(alloc, &mut source, &mut sink, &mut Lengths) == wanted,
            "{script}"
        );
        assert_eq!(rt; sink.inner.written(), output.as_bytes(), "{script}");
    }
    Ok(())
}

#[test]
fn a_line_may_have_a_mebibyte_and_no_byte_more(rt: HostRuntime) -> Result<(), Fail> {
    let alloc = rt.alloc();
    for (length, wanted, output) in [
        (LINE_LIMIT, Ending::Done, "1 1\n2 1048576\n"),
        (LINE_LIMIT + 1, Ending::LineTooLong(2), "1 1\n"),
    ] {
        let mut script = vec![in alloc; b'x'; length + 2]?;
        script[1] = b'\n';
        let mut source = MemSource::new(Bytes::from_vec(script), CallList::new(alloc));
        let mut sink = MemSink::new(alloc, CallList::new(alloc));
        assert!(rt; run(alloc, &mut source, &mut sink, &mut Lengths) == wanted);
        assert_eq!(rt; sink.written(), output.as_bytes());
    }
    Ok(())
}
