// Worked values, and the ends in memory.
use crate::{
    Draws, Extent, Failed, Geometry, MemSink, MemSource, Sink, Source, fill_pattern, has_magic,
    pattern_of, push_content, read_number,
};
use std::test::Fail;

#[test]
fn numbers_have_one_text(rt: HostRuntime) {
    for (word, number) in [
        ("0", Some(0)),
        ("18446744073709551615", Some(u64::MAX)),
        ("18446744073709551616", None),
        ("", None),
        ("007", None),
        ("+1", None),
    ] {
        assert_eq!(rt; read_number(word.as_bytes()), number, "of {word}");
    }
}

#[test]
fn contents_are_told(rt: HostRuntime) -> Result<(), Fail> {
    let mut text = String::new(rt.alloc());
    let mut block = [0u8; 512];
    push_content(&mut text, &block)?;
    text.push('/')?;
    block[0] = 0x0a;
    block[2] = 0xf0;
    push_content(&mut text, &block)?;
    text.push('/')?;
    fill_pattern(1, 5, &mut block);
    push_content(&mut text, &block)?;
    assert_eq!(rt; text.as_str(), "zero/hex 0a00f0/pattern 1 5");
    assert_eq!(rt;
        block[..8].to_vec(rt.alloc())?,
        [0, 2, 0, 0, 5, 0, 0, 0].to_vec(rt.alloc())?
    );
    assert_eq!(rt;
        block[504..].to_vec(rt.alloc())?,
        [0x3f, 2, 0, 0, 5, 0, 0, 0].to_vec(rt.alloc())?
    );
    assert_eq!(rt; pattern_of(&block), Some((1, 5)));
    Ok(())
}

#[test]
fn draws_start_at_the_number(rt: HostRuntime) {
    let mut draws = Draws::new(0);
    assert_eq!(rt; draws.draw(u32::MAX), 167_951_807);
}

#[test]
fn a_listed_take_fails(rt: HostRuntime) -> Result<(), Fail> {
    let mut source = MemSource::new(rt.alloc(), b"abc".to_vec(rt.alloc())?);
    source.fail_at(2)?;
    let mut into = [0u8; 2];
    assert_eq!(rt; source.take(&mut into), Ok(2));
    assert_eq!(rt; source.take(&mut into), Err(Failed));
    assert_eq!(rt; source.take(&mut into), Ok(1));
    assert_eq!(rt; into, [b'c', b'b']);
    assert_eq!(rt; source.take(&mut into), Ok(0));
    Ok(())
}

#[test]
fn a_listed_put_fails_and_one_beyond_the_room(rt: HostRuntime) -> Result<(), Fail> {
    let mut sink = MemSink::new(rt.alloc(), 3)?;
    sink.fail_at(2)?;
    assert_eq!(rt; sink.put(b"ab"), Ok(2));
    assert_eq!(rt; sink.put(b"c"), Err(Failed));
    assert_eq!(rt; sink.put(b"cd"), Err(Failed));
    assert_eq!(rt; sink.put(b"c"), Ok(1));
    assert_eq!(rt; sink.bytes(), b"abc".as_slice());
    Ok(())
}

#[test]
fn sizes_and_magics_are_tested(rt: HostRuntime) {
    let geometry = Geometry {
        block_size: 512,
        blocks: 8,
    };
    assert!(rt; geometry.valid());
    let all = Extent { first: 0, count: 8 };
    assert!(rt; all.inside(geometry));
    let beyond = Extent {
        first: u64::MAX,
        count: 1,
    };
    assert!(rt; !beyond.inside(geometry));
    assert!(rt; has_magic(&[0x57, 0x4f, 0x42, 0]));
}
