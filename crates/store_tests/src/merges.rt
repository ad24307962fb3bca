// Merges by pages.
use crate::rows::{Opening, Stamp};
use crate::script::{Command, play_in_memory};
use std::test::Fail;

const fn open<'a>(generation: u64, minimum: u64, hidden: bool) -> Command<'a> {
    Command::Open(Opening {
        generation,
        minimum,
        hidden,
    })
}

const fn commit<'a>(seq: u64, generation: u64, key: &'a [u8], cursor: &'a [u8]) -> Command<'a> {
    Command::Commit(Stamp {
        load: 1,
        seq,
        generation,
        key,
        cursor,
    })
}

const SEE: Command<'static> = Command::See { dedup: true };

#[test]
fn a_page_reads_its_rows_and_one_winner_for_each_key(rt: HostRuntime) -> Result<(), Fail> {
    let commands = [
        open(0, 0, false),
        commit(0, 0, b"a", b"#1e0"),
        commit(1, 0, b"b", b"#1e0"),
        commit(2, 0, b"a", b"#2e0"),
        commit(3, 0, b"c", b"#1e0"),
        commit(4, 0, b"a", b"#0e0"),
        Command::Merge(2),
        Command::Count,
        Command::Merge(2),
        Command::Count,
        Command::Merge(2),
        Command::Count,
        Command::Merge(2),
        Command::Count,
        SEE,
    ];
    let told = play_in_memory(rt.alloc(), &[], &commands)?;
    assert_eq!(rt;
        told.as_slice(),
        b"ok\nok\nok\nok\nok\nok\nmore\n7 events, 2 read\nmore\n8 events, 5 read\ndone\n9 events, 7 read\ndone\n10 events, 7 read\n[ 1.2 1.1 1.3 ]\n".as_slice()
    );
    Ok(())
}

#[test]
fn of_two_rows_of_one_key_the_greater_cursor_wins_and_a_second_merge_reads_nothing(
    rt: HostRuntime,
) -> Result<(), Fail> {
    let commands = [
        open(0, 0, false),
        commit(0, 0, b"a", b"#1e0"),
        commit(1, 0, b"a", b"#2e0"),
        Command::Merge(1_000),
        Command::Count,
        Command::Merge(1_000),
        Command::Count,
        SEE,
    ];
    let told = play_in_memory(rt.alloc(), &[], &commands)?;
    assert_eq!(rt;
        told.as_slice(),
        b"ok\nok\nok\ndone\n4 events, 2 read\ndone\n5 events, 2 read\n[ 1.1 ]\n".as_slice()
    );
    Ok(())
}

#[test]
fn a_row_with_an_empty_key_takes_no_part(rt: HostRuntime) -> Result<(), Fail> {
    let commands = [
        open(0, 0, false),
        commit(0, 0, b"", b"#1e0"),
        Command::Merge(1),
        Command::Count,
        SEE,
    ];
    let told = play_in_memory(rt.alloc(), &[], &commands)?;
    assert_eq!(rt;
        told.as_slice(),
        b"ok\nok\ndone\n3 events, 0 read\n[ ]\n".as_slice()
    );
    Ok(())
}

// The second load's merge reads the first load's row again only where it hides for others.
#[test]
fn loads_that_hide_for_the_same_generations_share_a_side_and_others_do_not(
    rt: HostRuntime,
) -> Result<(), Fail> {
    for (second, want) in [
        (
            open(2, 2, true),
            "ok\nok\ndone\n3 events, 1 read\nok\ndone\n5 events, 1 read\nok\n[ 1.0 ]\n",
        ),
        (
            open(2, 1, true),
            "ok\nok\ndone\n3 events, 1 read\nok\ndone\n5 events, 2 read\nok\n[ 1.0 ]\n",
        ),
        (
            open(3, 2, true),
            "ok\nok\ndone\n3 events, 1 read\nok\ndone\n5 events, 2 read\nok\n[ 1.0 ]\n",
        ),
    ] {
        let commands = [
            open(2, 2, true),
            commit(0, 2, b"a", b"n"),
            Command::Merge(9),
            Command::Count,
            second,
            Command::Merge(9),
            Command::Count,
            Command::Show,
            SEE,
        ];
        let told = play_in_memory(rt.alloc(), &[], &commands)?;
        assert_eq!(rt; told.as_slice(), want.as_bytes());
    }
    Ok(())
}
