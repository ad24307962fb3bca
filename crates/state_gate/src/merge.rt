// Records that are committed go out of the list of those that are not.
ghost use Rattle.std.specs.Prelude.{◌≡◌, ◌==◌, ◌≤◌, drop, filter, not, length, vec_len, vec_capacity};
ghost use Rattle.std.specs.List.{list_any};
ghost use Rattle.state_gate.specs.Content.{is_among as among};
ghost use Rattle.state_gate.specs.Merges.{passed_over, left_over};
ghost use Rattle.state_gate.specs.Views.{RiseFrom};

use crate::Accepted;

// Drops each record whose sequence is the next of these, in one pass, and answers how many of these were met.
fn drop_in_order(records: &mut Vec<Accepted>, seqs: &[u64]) -> usize
    ensures left { left_over seqs.now records.old.items ≡ drop result seqs.now }
    ensures within { result ≤ length seqs.now }
    ensures items { records.new.items ≡ passed_over seqs.now records.old.items }
    ensures len { vec_len records.new ≤ vec_len records.old }
    ensures capacity { vec_capacity records.new ≡ vec_capacity records.old }
{
    let mut kept = 0;
    let mut met = 0;
    for index in 0..records.len() {
        let accepted = records[index];
        if met < seqs.len() && seqs[met] == accepted.seq {
            met += 1;
        } else {
            records[kept] = accepted;
            kept += 1;
        }
    }
    records.truncate(kept);
    met
}

fn is_among(seqs: &[u64], seq: u64) -> bool
    ensures { result ≡ list_any (λ other. other == seq) seqs.now }
{
    for other in seqs {
        if *other == seq {
            return true;
        }
    }
    false
}

// Drops each record whose sequence is among these.
fn drop_among(records: &mut Vec<Accepted>, seqs: &[u64])
    ensures items { records.new.items ≡ filter (λ accepted. not (among seqs.now accepted)) records.old.items }
    ensures len { vec_len records.new ≤ vec_len records.old }
    ensures capacity { vec_capacity records.new ≡ vec_capacity records.old }
{
    records.retain(|accepted| !is_among(seqs, accepted.seq));
}

/// Drops each record whose sequence is among these: in one pass over the records, where the sequences rise.
pub fn drop_committed(records: &mut Vec<Accepted>, seqs: &[u64])
    requires { RiseFrom 0 records.old.items }
    ensures items { records.new.items ≡ filter (λ accepted. not (among seqs.now accepted)) records.old.items }
    ensures len { vec_len records.new ≤ vec_len records.old }
    ensures capacity { vec_capacity records.new ≡ vec_capacity records.old }
{
    let met = drop_in_order(records, seqs);
    if met < seqs.len() {
        drop_among(records, &seqs[met..]);
    }
}
