//! What stands before a text, in its frame or in its line.
ghost use Rattle.std.specs.Prelude.{◌≡◌, ◌+◌, ◌<◌, ◌≤◌, ◌^◌, ◌++◌, ◌==◌, length, decimal};
ghost use Rattle.std.specs.List.{list_any};
ghost use Rattle.arrayvec.specs.ArrayVec.{array_vec_len};
ghost use Rattle.wire.specs.RequestForm.{expect_word, IsExpect};

use arrayvec::ArrayVec;
use itoa::Buffer;
use map_core::Expect;

/// The longest is that of a line: a verb, the longest name and a sequence, each with a space behind it.
pub const HEAD_BYTES: usize = 283;

/// What stands before a text, which stays where it is.
pub type Head = ArrayVec<u8, HEAD_BYTES>;

pub fn head_of(bytes: &[u8]) -> Head
    requires { length bytes.now ≤ 283 }
    ensures { result.items ≡ bytes.now }
{
    let mut head = ArrayVec::new();
    put(&mut head, bytes);
    head
}

pub fn put(head: &mut Head, more: &[u8])
    requires { array_vec_len head.old + length more.now ≤ 283 }
    ensures { head.new.items ≡ head.old.items ++ more.now }
{
    let _fits = head.try_extend_from_slice(more);
}

/// Puts the number in decimal.
pub fn put_number(head: &mut Head, number: u64)
    requires { array_vec_len head.old ≤ 263 }
    ensures items { head.new.items ≡ head.old.items ++ decimal number }
    ensures few { array_vec_len head.new ≤ array_vec_len head.old + 20 }
    ensures fits { number < 2 ^ 64 }
{
    put(head, Buffer::new().format(number).as_bytes());
}

/// Puts the word of an expectation.
pub(crate) fn put_expect(head: &mut Head, expect: Expect)
    requires { array_vec_len head.old ≤ 263 }
    ensures items { head.new.items ≡ head.old.items ++ expect_word expect }
    ensures few { array_vec_len head.new ≤ array_vec_len head.old + 20 }
    ensures fits { IsExpect expect }
{
    match expect {
        Expect::Absent => put(head, b"absent"),
        Expect::Unnumbered => put(head, b"none"),
        Expect::Sequence(sequence) => put_number(head, sequence),
    }
}

/// Whether the byte is among the bytes.
pub(crate) fn has(bytes: &[u8], byte: u8) -> bool
    ensures { result ≡ list_any (λ b. b == byte) bytes.now }
{
    bytes.contains(&byte)
}
