// The winners of rows.
use crate::rows::{Stamp, rows_of, write_rows};
use outside::{Bytes, NoMemory};
use std::alloc::Global;
use std::test::Fail;

const fn row<'a>(load: u64, seq: u64, key: &'a [u8], cursor: &'a [u8]) -> Stamp<'a> {
    Stamp {
        load,
        seq,
        generation: 0,
        key,
        cursor,
    }
}

// The winners of these rows, load and sequence of each.
fn won(alloc: Global, stamps: &[Stamp<'_>]) -> Result<Bytes, NoMemory> {
    let mut told = Bytes::new(alloc);
    let winners = dedup_merge::winners(alloc, &rows_of(alloc, stamps)?)?;
    write_rows(alloc, &mut told, winners.as_slice())?;
    Ok(told)
}

#[test]
fn of_equal_cursors_the_later_load_and_then_the_later_sequence_wins(
    rt: HostRuntime,
) -> Result<(), Fail> {
    let rows = [
        row(1, 3, b"k", b"n"),
        row(2, 0, b"k", b"n"),
        row(1, 5, b"k", b"n"),
    ];
    let told = won(rt.alloc(), &[rows[0], rows[2]])?;
    assert_eq!(rt; told.as_slice(), b"[ 1.5 ]".as_slice());
    let told = won(rt.alloc(), &rows)?;
    assert_eq!(rt; told.as_slice(), b"[ 2.0 ]".as_slice());
    Ok(())
}

#[test]
fn a_null_cursor_is_below_every_other_and_a_text_of_no_value_counts_as_null(
    rt: HostRuntime,
) -> Result<(), Fail> {
    for (later, sooner, want) in [
        ("n", "#-1e0", "[ 1.0 ]"),
        ("#10e0", "#-1e0", "[ 1.0 ]"),
        ("#10e0", "n", "[ 2.9 ]"),
        ("#95e-1", "#1025e-2", "[ 1.0 ]"),
        ("t", "#1e0", "[ 1.0 ]"),
    ] {
        let told = won(
            rt.alloc(),
            &[
                row(2, 9, b"k", later.as_bytes()),
                row(1, 0, b"k", sooner.as_bytes()),
            ],
        )?;
        assert_eq!(rt;
            told.as_slice(),
            want.as_bytes(),
            "{later} against {sooner}"
        );
    }
    Ok(())
}

#[test]
fn winners_stand_in_order_of_their_keys_and_an_empty_key_takes_no_part(
    rt: HostRuntime,
) -> Result<(), Fail> {
    let told = won(
        rt.alloc(),
        &[
            row(1, 0, b"b", b"n"),
            row(1, 1, b"", b"n"),
            row(1, 2, b"a", b"n"),
            row(1, 3, b"ab", b"n"),
        ],
    )?;
    assert_eq!(rt; told.as_slice(), b"[ 1.2 1.3 1.0 ]".as_slice());
    Ok(())
}
