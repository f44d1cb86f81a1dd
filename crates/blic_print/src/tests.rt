// Pieces and frames in worked rows, longer texts, and outputs that fail.
use crate::{Piece, WriteFault, print_frame, print_pieces};
use blic_basic::MemSink;
use std::alloc::Global;
use std::test::Fail;

// An output of so much room, whose calls of these numbers fail.
fn output(alloc: Global, most: usize, failing: &[u64], room: usize) -> Result<MemSink, Fail> {
    let failing = failing.to_vec(alloc)?;
    Ok(MemSink::new(alloc, most.max(1), failing, room).map_err(|_| "memory")?)
}

#[test]
fn pieces_are_their_bytes_and_numbers_in_decimal(rt: HostRuntime) -> Result<(), Fail> {
    let rows: [(&[Piece<'static>], &str); 6] = [
        (&[], ""),
        (&[Piece::Bytes(b"")], ""),
        (&[Piece::Number(0)], "0"),
        (&[Piece::Number(u64::MAX)], "18446744073709551615"),
        (
            &[
                Piece::Bytes(b"c limit nodes at "),
                Piece::Number(607),
                Piece::Bytes(b"\n"),
            ],
            "c limit nodes at 607\n",
        ),
        (
            &[Piece::Hex(b"\x00\x7e\xd8\xff"), Piece::Bytes(b".")],
            "007ed8ff.",
        ),
    ];
    for (pieces, text) in rows {
        // The second call would fail: there is one at most.
        let mut out = output(rt.alloc(), 9_000, &[1], 9_000)?;
        assert_eq!(rt; print_pieces(&mut out, pieces), Ok(()), "{text}");
        assert_eq!(rt; out.bytes(), text.as_bytes());
        assert_eq!(rt; out.faults(), 0);
    }
    Ok(())
}

#[test]
fn a_text_longer_than_the_buffer_is_printed_whole(rt: HostRuntime) -> Result<(), Fail> {
    let alloc = rt.alloc();
    for count in [4_089, 4_090, 4_091, 4_095, 4_096, 4_097, 9_000] {
        let long = vec![in alloc; b'x'; count]?;
        let mut want = Vec::from_slice(alloc, b"before")?;
        want.extend_from_slice(long.as_slice())?;
        want.extend_from_slice(b"7 after")?;
        let pieces = [
            Piece::Bytes(b"before"),
            Piece::Bytes(long.as_slice()),
            Piece::Number(7),
            Piece::Bytes(b" after"),
        ];
        let mut out = output(alloc, 1_000, &[], 10_000)?;
        assert_eq!(rt; print_pieces(&mut out, &pieces), Ok(()));
        assert!(rt; out.bytes() == want.as_slice(), "{count}");
    }
    Ok(())
}

#[test]
fn a_frame_is_a_line_of_its_digits(rt: HostRuntime) -> Result<(), Fail> {
    let rows: [(&[u8], &str); 7] = [
        (&[], "> \n"),
        (&[0x81], "> 81\n"),
        (&[0, 0, 0, 0, 2], "> 0000000002\n"),
        (&[0, 0, 0, 1, 0x81, 1], "< 000000018101\n"),
        (&[0, 0, 0, 0, 0x80], "> 0000000080\n"),
        (&[0, 0, 0, 0, 0xff], "< 00000000ff\n"),
        (
            &[
                0, 0, 0, 8, 3, 0x12, 0x34, 0x56, 0x78, 0x9a, 0xbc, 0xde, 0xf0,
            ],
            "> 0000000803123456789abcdef0\n",
        ),
    ];
    for (frame, line) in rows {
        let mut out = output(rt.alloc(), 9_000, &[1], 9_000)?;
        assert_eq!(rt; print_frame(&mut out, frame), Ok(()), "{line}");
        assert_eq!(rt; out.bytes(), line.as_bytes());
    }
    Ok(())
}

// An ask that goes on with so many bytes 0xa5, and its line.
fn long_frame(alloc: Global, count: usize) -> Result<(Vec<u8>, Vec<u8>), Fail> {
    let mut frame = Vec::from_slice(alloc, &[0, 0, 0, 0, 1])?;
    let mut line = Vec::from_slice(alloc, b"> 0000000001")?;
    for _ in 0..count {
        frame.push(0xa5)?;
        line.extend_from_slice(b"a5")?;
    }
    line.push(b'\n')?;
    Ok((frame, line))
}

#[test]
fn a_long_frame_is_one_line(rt: HostRuntime) -> Result<(), Fail> {
    for count in [2_041, 2_042, 2_043, 70_000] {
        let (frame, line) = long_frame(rt.alloc(), count)?;
        let mut out = output(rt.alloc(), 1_000_000, &[], 1_000_000)?;
        assert_eq!(rt; print_frame(&mut out, frame.as_slice()), Ok(()));
        assert!(rt; out.bytes() == line.as_slice(), "{count}");
    }
    Ok(())
}

#[test]
fn an_output_that_fails_has_a_front_of_the_line(rt: HostRuntime) -> Result<(), Fail> {
    let (frame, line) = long_frame(rt.alloc(), 5_000)?;
    for (failing, room, front) in [
        (0, 20_000, 0),
        (1, 20_000, 50),
        (2, 20_000, 100),
        (9_000, 0, 0),
        (9_000, 4_999, 4_999),
        (9_000, 10_012, 10_012),
    ] {
        let mut out = output(rt.alloc(), 50, &[failing], room)?;
        assert_eq!(rt; print_frame(&mut out, frame.as_slice()), Err(WriteFault));
        assert!(rt; Some(out.bytes()) == line.get(..front), "{front}");
        assert_eq!(rt; out.faults(), 1);
    }
    let pieces = [Piece::Bytes(b"pairs "), Piece::Number(12345)];
    for (failing, front) in [(0, ""), (1, "pair"), (2, "pairs 12")] {
        let mut out = output(rt.alloc(), 4, &[failing], 100)?;
        assert_eq!(rt; print_pieces(&mut out, &pieces), Err(WriteFault));
        assert_eq!(rt; out.bytes(), front.as_bytes());
        assert_eq!(rt; out.faults(), 1);
    }
    Ok(())
}
