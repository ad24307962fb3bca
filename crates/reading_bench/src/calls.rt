// The calls that are timed. A call to be timed too is one more variant, with its name and its loop over the lines.
use airbyte_message::{Message, MessageReader, MessageView, read_message};
use basics::NoMemory;
use json_span::{DeepMembers, SpanFault, members};
use std::alloc::Global;

/// What is done with each line.
#[derive(Clone, Copy)]
pub enum Call {
    /// Its members are cut.
    Members,
    /// Its members are cut, and theirs.
    Deep,
    /// It is read in place, by one reader.
    ReadView,
    /// It is read into a message with parts of its own.
    ReadMessage,
}

impl Call {
    /// The call of this name.
    pub fn named(name: &str) -> Option<Call> {
        if name == "members" {
            return Some(Call::Members);
        }
        if name == "deep" {
            return Some(Call::Deep);
        }
        if name == "read_view" {
            return Some(Call::ReadView);
        }
        if name == "read_message" {
            return Some(Call::ReadMessage);
        }
        None
    }

    /// How much the lines held, counted in a way that each line has a part in.
    pub fn over(self, alloc: Global, lines: &[&[u8]]) -> Result<u64, NoMemory> {
        match self {
            Call::Members => count_members(alloc, lines),
            Call::Deep => count_deep(alloc, lines),
            Call::ReadView => count_views(alloc, lines),
            Call::ReadMessage => count_messages(alloc, lines),
        }
    }
}

fn count_members(alloc: Global, lines: &[&[u8]]) -> Result<u64, NoMemory> {
    let mut count = 0u64;
    for line in lines {
        match members(alloc, line) {
            Ok(members) => count = count.wrapping_add(members.len() as u64),
            Err(SpanFault::NoMemory) => return Err(NoMemory),
            Err(_) => (),
        }
    }
    Ok(count)
}

fn count_deep(alloc: Global, lines: &[&[u8]]) -> Result<u64, NoMemory> {
    let mut levels = DeepMembers::new(alloc);
    let mut count = 0u64;
    for line in lines {
        match levels.cut(line) {
            Ok(()) => count = count.wrapping_add(held_by(&levels)),
            Err(SpanFault::NoMemory) => return Err(NoMemory),
            Err(_) => (),
        }
    }
    Ok(count)
}

// How many members there are at both levels.
fn held_by(levels: &DeepMembers) -> u64 {
    let mut count = 0u64;
    for index in 0..levels.outer().len() {
        let inner = match levels.inner(index) {
            Some(members) => members.len() as u64,
            None => 0,
        };
        count = count.wrapping_add(1).wrapping_add(inner);
    }
    count
}

// The bytes of a record's data, or 1 for another message.
fn size_of_view(view: &MessageView<'_>) -> u64 {
    match view {
        MessageView::Rec(record) => record.body.len() as u64,
        MessageView::Owned(_) => 1,
    }
}

fn size_of_message(message: &Message) -> u64 {
    match message {
        Message::Rec(record) => record.body.len() as u64,
        _ => 1,
    }
}

fn count_views(alloc: Global, lines: &[&[u8]]) -> Result<u64, NoMemory> {
    let mut reader = MessageReader::new(alloc);
    let mut count = 0u64;
    for line in lines {
        if let Some(view) = reader.read(line)? {
            count = count.wrapping_add(size_of_view(&view));
        }
    }
    Ok(count)
}

fn count_messages(alloc: Global, lines: &[&[u8]]) -> Result<u64, NoMemory> {
    let mut count = 0u64;
    for line in lines {
        if let Some(message) = read_message(alloc, line)? {
            count = count.wrapping_add(size_of_message(&message));
        }
    }
    Ok(count)
}
