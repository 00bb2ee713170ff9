//! Replies that are appended where room was made before, so that nothing can fail any more.
ghost use Rattle.std.specs.Prelude.{◌≡◌, ◌+◌, ◌≤◌, ◌++◌, codes, decimal, [], ◌∷◌, length, vec_capacity, vec_len};
ghost use Rattle.pf_runs.specs.Runs.{reply_text};
ghost use Rattle.pf_reply.specs.Replies.{of_text, replaced_text};

use itoa::Buffer;

// Appends bytes for which there is room.
fn put_within(out: &mut Vec<u8>, bytes: &[u8])
    requires { vec_len out.old + length bytes.now ≤ vec_capacity out.old }
    ensures items { out.new.items ≡ out.old.items ++ bytes.now }
    ensures len { vec_len out.new ≡ vec_len out.old + length bytes.now }
    ensures room { vec_capacity out.old ≤ vec_capacity out.new }
{
    let Ok(()) = out.extend_from_slice(bytes) else {
        unreachable!();
    };
}

// Appends a number for which there is room: it has at most 20 digits.
fn put_count_within(out: &mut Vec<u8>, number: u64)
    requires { vec_len out.old + 20 ≤ vec_capacity out.old }
    ensures items { out.new.items ≡ out.old.items ++ decimal number }
    ensures len { vec_len out.new ≤ vec_len out.old + 20 }
    ensures room { vec_capacity out.old ≤ vec_capacity out.new }
{
    let mut digits = Buffer::new();
    put_within(out, digits.format(number).as_bytes());
}

/// Appends the line `N/M addresses WORD.`, with room for 80 bytes; the word has at most 10.
pub(crate) fn put_of_within(out: &mut Vec<u8>, count: u64, words: u64, what: &[u8])
    requires short { length what.now ≤ 10 }
    requires room { vec_len out.old + 80 ≤ vec_capacity out.old }
    ensures { out.new.items ≡ out.old.items ++ reply_text (of_text count words what.now ∷ []) }
{
    put_count_within(out, count);
    put_within(out, b"/");
    put_count_within(out, words);
    put_within(out, b" addresses ");
    put_within(out, what);
    put_within(out, b".\n");
}

/// Appends the line `N addresses added. M addresses deleted.`, with room for 80 bytes.
pub(crate) fn put_replaced_within(out: &mut Vec<u8>, added: u64, deleted: u64)
    requires { vec_len out.old + 80 ≤ vec_capacity out.old }
    ensures { out.new.items ≡ out.old.items ++ reply_text (replaced_text added deleted ∷ []) }
{
    put_count_within(out, added);
    put_within(out, b" addresses added. ");
    put_count_within(out, deleted);
    put_within(out, b" addresses deleted.\n");
}

/// Appends the line `N addresses deleted.`, with room for 40 bytes.
pub(crate) fn put_emptied_within(out: &mut Vec<u8>, deleted: u64)
    requires { vec_len out.old + 40 ≤ vec_capacity out.old }
    ensures { out.new.items ≡ out.old.items ++ reply_text ((decimal deleted ++ codes " addresses deleted.") ∷ []) }
{
    put_count_within(out, deleted);
    put_within(out, b" addresses deleted.\n");
}
