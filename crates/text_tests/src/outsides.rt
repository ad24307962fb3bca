// The values that the other crates share, with memory at hand.
use basics::{Boxed, Bytes, Name, NoMemory, Sequence};
use std::alloc::Global;
use std::test::Fail;

// A text that grew by a byte, and by more bytes.
fn grown_text(alloc: Global) -> Result<Bytes, Fail> {
    let mut bytes = Bytes::copy_of(alloc, b"ab")?;
    bytes.push(b'c')?;
    bytes.append(vec![in alloc; b'd', b'e']?)?;
    Ok(bytes)
}

// The numbers below this one.
fn counted(alloc: Global, end: u64) -> Result<Sequence<u64>, NoMemory> {
    let mut numbers: Sequence<u64> = Sequence::with_capacity(alloc, 2)?;
    for number in 0..end {
        numbers.push(number)?;
    }
    Ok(numbers)
}

#[test]
fn sequences_grow(rt: HostRuntime) -> Result<(), Fail> {
    let bytes = grown_text(rt.alloc())?;
    assert!(rt; bytes.as_slice() == b"abcde".as_slice());
    assert!(rt; bytes.len() == 5 && !bytes.is_empty());
    assert!(rt; counted(rt.alloc(), 0)?.is_empty());
    assert!(rt; counted(rt.alloc(), 3)?.into_vec().as_slice() == [0, 1, 2].as_slice());
    Ok(())
}

// A list that grew by an item, and by more items.
fn grown_list(alloc: Global) -> Result<Sequence<u64>, Fail> {
    let mut list: Sequence<u64> = Sequence::with_capacity(alloc, 1)?;
    list.push(3)?;
    list.append(Vec::from_array(alloc, [4, 5])?)?;
    Ok(list)
}

#[test]
fn lists_grow(rt: HostRuntime) -> Result<(), Fail> {
    let list = grown_list(rt.alloc())?;
    assert_eq!(rt; list.len(), 3);
    assert!(rt; list.as_slice() == [3, 4, 5].as_slice());
    Ok(())
}

// Whether names hold what was put in.
fn names_hold(alloc: Global) -> Result<bool, Fail> {
    let copied = Name::copy_of(alloc, "Zoë")?;
    let moved = Name::from_string(String::from_str(alloc, "")?);
    Ok(copied.as_str() == "Zoë" && moved.as_str() == "")
}

// Whether the bytes of a string are those of its UTF-8.
fn bytes_hold(alloc: Global) -> Result<bool, Fail> {
    let text = Bytes::from_string(String::from_str(alloc, "Zoë")?);
    let want = b"\x5a\x6f\xc3\xab".as_slice();
    Ok(text.as_slice() == want && text.into_vec().as_slice() == want)
}

// Whether a box holds what was put in.
fn box_holds(alloc: Global) -> Result<bool, NoMemory> {
    Ok(*Boxed::new(alloc, 7)?.get() == 7)
}

#[test]
fn names_and_boxes_hold_what_was_put_in(rt: HostRuntime) -> Result<(), Fail> {
    assert!(rt; names_hold(rt.alloc())?, "names");
    assert!(rt; bytes_hold(rt.alloc())?, "bytes");
    assert!(rt; box_holds(rt.alloc())?, "a box");
    Ok(())
}
