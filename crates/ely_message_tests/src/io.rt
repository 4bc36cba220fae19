use ely_base::Refused;
use ely_io::{
    Line, LineFault, LineReader, MemSink, MemSource, Sink, Source, StdSink, StdSource, SureSink,
    SureSource, write_all,
};
use std::test::Fail;

/// The lines of a source, each followed by `|`, and a too long one as `+`.
fn lines_of<S: Source>(rt: &HostRuntime, source: &mut S, limit: usize) -> Result<Vec<u8>, Fail> {
    let mut reader = LineReader::new(rt.alloc())?;
    let mut shown = Vec::new(rt.alloc());
    for _ in 0..32 {
        match reader.next(rt.alloc(), source, limit.max(1)) {
            Ok(Line::Text(line)) => {
                shown.extend_from_slice(line.bytes())?;
                shown.push(b'|')?;
            }
            Ok(Line::TooLong) => shown.push(b'+')?,
            Ok(Line::End) => shown.push(b'.')?,
            Err(Refused::Fault(LineFault::Read)) => shown.push(b'!')?,
            Err(_) => shown.push(b'?')?,
        }
        if reader.ended() {
            return Ok(shown);
        }
    }
    Ok(shown)
}

#[test]
fn lines_are_those_of_the_bytes_in_any_pieces(rt: HostRuntime) -> Result<(), Fail> {
    let text = b"ab\n\nlonger\nc".to_vec(rt.alloc())?;
    let pieces = vec![in rt.alloc(); 1, 2, 3, 1]?;
    let mut source = MemSource::new(text, pieces, Vec::new(rt.alloc()));
    assert_eq!(rt;
        lines_of(&rt, &mut source, 5)?.as_slice(),
        b"ab||+c|".as_slice()
    );
    let mut whole = SureSource::new(b"ab\n\nlonger\nc\n".to_vec(rt.alloc())?);
    assert_eq!(rt;
        lines_of(&rt, &mut whole, 6)?.as_slice(),
        b"ab||longer|c|.".as_slice()
    );
    Ok(())
}

#[test]
fn a_whole_line_that_is_held_is_told(rt: HostRuntime) -> Result<(), Fail> {
    let mut source = SureSource::new(b"ab\ncd\nef".to_vec(rt.alloc())?);
    let mut reader = LineReader::new(rt.alloc())?;
    for held in [true, false, false] {
        assert!(rt; matches!(&reader.next(rt.alloc(), &mut source, 9), Ok(Line::Text(_))));
        assert_eq!(rt; reader.has_line(), held);
    }
    Ok(())
}

#[test]
fn a_failed_read_is_answered_again(rt: HostRuntime) -> Result<(), Fail> {
    let text = b"ab\ncd\n".to_vec(rt.alloc())?;
    let mut source = MemSource::new(text, vec![in rt.alloc(); 4]?, vec![in rt.alloc(); 1]?);
    let mut reader = LineReader::new(rt.alloc())?;
    assert!(rt; matches!(&reader.next(rt.alloc(), &mut source, 9), Ok(Line::Text(_))));
    assert_eq!(rt; reader.given(), 3);
    for _ in 0..2 {
        let again = reader.next(rt.alloc(), &mut source, 9);
        assert!(rt; matches!(&again, Err(Refused::Fault(LineFault::Read))));
    }
    assert_eq!(rt; source.calls(), 2);
    Ok(())
}

#[test]
fn a_piece_is_written_whole_or_its_prefix(rt: HostRuntime) -> Result<(), Fail> {
    let mut sink = MemSink::new(rt.alloc(), vec![in rt.alloc(); 1, 2]?, Vec::new(rt.alloc()));
    assert!(rt; write_all(&mut sink, b"abcdef").is_ok());
    assert_eq!(rt; sink.bytes(), b"abcdef".as_slice());
    let mut short = MemSink::new(rt.alloc(), vec![in rt.alloc(); 4, 0]?, Vec::new(rt.alloc()));
    assert!(rt; write_all(&mut short, b"abcdef").is_err());
    assert_eq!(rt; short.bytes(), b"abcd".as_slice());
    assert!(rt; write_all(&mut SureSink, b"abcdef").is_ok());
    Ok(())
}

#[test]
fn adapters_hand_bytes_on(rt: HostRuntime) -> Result<(), Fail> {
    let mut source = StdSource::new(b"ab\ncd".as_slice());
    assert_eq!(rt;
        lines_of(&rt, &mut source, 9)?.as_slice(),
        b"ab|cd|".as_slice()
    );
    let mut sink = StdSink::new(Vec::new(rt.alloc()));
    assert!(rt; sink.write(b"xyz").is_ok());
    Ok(())
}
