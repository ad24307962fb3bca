// Generations of one stream over several loads.
use crate::rows::{Opening, Stamp};
use crate::script::{Command, play_in_memory};
use std::test::Fail;

const fn shown<'a>(generation: u64) -> Command<'a> {
    Command::Open(Opening {
        generation,
        minimum: 0,
        hidden: false,
    })
}

const fn hidden<'a>(generation: u64) -> Command<'a> {
    Command::Open(Opening {
        generation,
        minimum: generation,
        hidden: true,
    })
}

const fn commit<'a>(load: u64, generation: u64) -> Command<'a> {
    Command::Commit(Stamp {
        load,
        seq: 0,
        generation,
        key: b"k",
        cursor: b"n",
    })
}

const SEE: Command<'static> = Command::See { dedup: false };

#[test]
fn a_committed_row_is_seen(rt: HostRuntime) -> Result<(), Fail> {
    let told = play_in_memory(rt.alloc(), &[], &[shown(0), commit(1, 0), SEE])?;
    assert_eq!(rt; told.as_slice(), b"ok\nok\n[ 1.0 ]\n".as_slice());
    Ok(())
}

#[test]
fn rows_of_the_old_generation_are_seen_until_the_new_ones_are_shown(
    rt: HostRuntime,
) -> Result<(), Fail> {
    let commands = [
        shown(1),
        commit(1, 1),
        hidden(2),
        commit(2, 2),
        SEE,
        hidden(2),
        commit(3, 2),
        SEE,
        Command::Show,
        SEE,
    ];
    let told = play_in_memory(rt.alloc(), &[], &commands)?;
    assert_eq!(rt;
        told.as_slice(),
        b"ok\nok\nok\nok\n[ 1.0 ]\nok\nok\n[ 1.0 ]\nok\n[ 2.0 3.0 ]\n".as_slice()
    );
    Ok(())
}

#[test]
fn a_stream_that_restarts_shows_the_rows_of_its_last_generation_alone(
    rt: HostRuntime,
) -> Result<(), Fail> {
    let commands = [
        shown(1),
        commit(1, 1),
        hidden(2),
        commit(2, 2),
        hidden(3),
        commit(3, 3),
        SEE,
        Command::Show,
        SEE,
    ];
    let told = play_in_memory(rt.alloc(), &[], &commands)?;
    assert_eq!(rt;
        told.as_slice(),
        b"ok\nok\nok\nok\nok\nok\n[ 1.0 ]\nok\n[ 3.0 ]\n".as_slice()
    );
    Ok(())
}

#[test]
fn showing_a_stream_that_is_not_hidden_adds_its_event_alone(rt: HostRuntime) -> Result<(), Fail> {
    let commands = [
        shown(1),
        commit(1, 1),
        Command::Count,
        SEE,
        Command::Show,
        Command::Count,
        SEE,
    ];
    let told = play_in_memory(rt.alloc(), &[], &commands)?;
    assert_eq!(rt;
        told.as_slice(),
        b"ok\nok\n2 events, 0 read\n[ 1.0 ]\nok\n3 events, 0 read\n[ 1.0 ]\n".as_slice()
    );
    Ok(())
}

// Of six calls that can fail, one does: it changes nothing, and the others do what they do without it.
#[test]
fn a_call_that_is_to_fail_changes_nothing(rt: HostRuntime) -> Result<(), Fail> {
    let commands = [
        shown(1),
        Command::Count,
        commit(1, 1),
        Command::Count,
        Command::Merge(9),
        Command::Count,
        SEE,
        Command::See { dedup: true },
    ];
    for (failing, want) in [
        (
            1,
            "failed\nno load\nno load\nno load\nno load\nno load\nno load\nno load\n",
        ),
        (
            2,
            "ok\n1 events, 0 read\nfailed\n1 events, 0 read\ndone\n2 events, 0 read\n[ ]\n[ ]\n",
        ),
        (
            3,
            "ok\n1 events, 0 read\nok\n2 events, 0 read\nfailed\n2 events, 0 read\n[ 1.0 ]\n[ ]\n",
        ),
        (
            4,
            "ok\n1 events, 0 read\nok\n2 events, 0 read\nfailed\n2 events, 1 read\n[ 1.0 ]\n[ ]\n",
        ),
        (
            5,
            "ok\n1 events, 0 read\nok\n2 events, 0 read\nfailed\n2 events, 1 read\n[ 1.0 ]\n[ ]\n",
        ),
        (
            6,
            "ok\n1 events, 0 read\nok\n2 events, 0 read\ndone\n3 events, 1 read\n[ 1.0 ]\n[ 1.0 ]\n",
        ),
    ] {
        let told = play_in_memory(rt.alloc(), &[failing], &commands)?;
        assert_eq!(rt; told.as_slice(), want.as_bytes(), "call {failing} fails");
    }
    Ok(())
}

#[test]
fn a_show_that_is_to_fail_leaves_the_old_rows_seen(rt: HostRuntime) -> Result<(), Fail> {
    let commands = [
        shown(1),
        commit(1, 1),
        hidden(2),
        commit(2, 2),
        Command::Show,
        Command::Count,
        SEE,
        Command::Show,
        SEE,
    ];
    let told = play_in_memory(rt.alloc(), &[5], &commands)?;
    assert_eq!(rt;
        told.as_slice(),
        b"ok\nok\nok\nok\nfailed\n4 events, 0 read\n[ 1.0 ]\nok\n[ 2.0 ]\n".as_slice()
    );
    Ok(())
}

#[test]
fn generations_follow_the_rules(rt: HostRuntime) {
    assert_eq!(rt; generation_rules::floor(0, 2), 2);
    assert_eq!(rt; generation_rules::floor(5, 2), 5);
    assert_eq!(rt; generation_rules::must_hide(0, 2), true);
    assert_eq!(rt; generation_rules::must_hide(2, 2), false);
    for (catalog, last, want) in [
        (None, None, Some(0)),
        (None, Some(1), Some(2)),
        (Some(5), Some(1), Some(5)),
        (Some(1), Some(1), Some(2)),
        (None, Some(4_611_686_018_427_387_904), None),
    ] {
        assert_eq!(rt; generation_rules::next_generation(catalog, last), want);
    }
}
