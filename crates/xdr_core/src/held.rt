//! Bytes that were poured and not yet read.

ghost use Rattle.std.specs.Prelude.{◌≡◌, ◌≤◌, ◌<◌, ◌+◌, ◌++◌, [], true, length, take, drop, IfOk, OnOk, OnErr};
ghost use Rattle.std.specs.Int.{w32, w64, from_be_bytes};
ghost use Rattle.xdr_core.specs.Sources.{GoesOn, Halts};

use crate::error::{NoMemory, Stopped};
use crate::pour::Pour;
use std::alloc::Global;
use std::marker::Model;

/// How many bytes are held at most.
const ROOM: usize = 65_536;

/// The bytes that were poured and not yet read.
#[derive(Drop)]
pub struct Held {
    room: Vec<u8>,
    start: usize,
    end: usize,
}

impl Model for Held {
    ghost use Rattle.std.specs.Prelude.{List, ℕ, ◌≡◌, ◌≤◌, ◌-◌, take, drop, length};

    ghost Value = { List ℕ };

    ghost view = { λ h. take (h.end - h.start) (drop h.start h.room.items) };

    ghost invariant = { λ h. (h.start ≤ h.end) × (h.end ≤ length h.room.items) × (length h.room.items ≡ 65536) };
}

impl Held {
    /// Takes the room for all bytes that are ever held. It holds none.
    pub fn new(alloc: Global) -> Result<Held, NoMemory>
        ensures { IfOk result (λ h. h ≡ []) }
    {
        let room = Vec::from_elem(alloc, 0u8, ROOM)?;
        Ok(Held {
            room,
            start: 0,
            end: 0,
        })
    }

    /// How many bytes are held.
    pub fn len(&self) -> usize
        ensures { result ≡ length self.now }
    {
        self.end - self.start
    }

    /// The bytes that are held.
    pub fn as_slice(&self) -> &[u8]
        ensures { result.now ≡ self.now }
    {
        &self.room[self.start..self.end]
    }

    /// The first word.
    pub fn word(&self) -> u32
        requires { 4 ≤ length self.now }
        ensures { result ≡ from_be_bytes w32 (take 4 self.now) }
    {
        let at = self.start;
        u32::from_be_bytes([
            self.room[at],
            self.room[at + 1],
            self.room[at + 2],
            self.room[at + 3],
        ])
    }

    /// The first two words, as one number.
    pub fn double_word(&self) -> u64
        requires { 8 ≤ length self.now }
        ensures { result ≡ from_be_bytes w64 (take 8 self.now) }
    {
        let at = self.start;
        u64::from_be_bytes([
            self.room[at],
            self.room[at + 1],
            self.room[at + 2],
            self.room[at + 3],
            self.room[at + 4],
            self.room[at + 5],
            self.room[at + 6],
            self.room[at + 7],
        ])
    }

    /// Drops the first bytes.
    pub fn skip(&mut self, n: usize)
        requires { n ≤ length self.old }
        ensures { self.new ≡ drop n self.old }
    {
        self.start += n;
    }

    /// Pours bytes behind those that are held, and returns their number. The number is 0 only at the end. After an error
    /// the bytes are lost.
    pub fn refill<P: Pour>(&mut self, pour: &mut P) -> Result<usize, Stopped>
        requires { length self.old < 65536 }
        ensures more { IfOk result (λ n. length self.new ≡ length self.old + n) }
        ensures poured { IfOk result (λ n. (P.seen pour.old).told ≡ true → ((P.seen pour.new).told ≡ true)
            × (self.new ++ (P.seen pour.new).rest ≡ self.old ++ (P.seen pour.old).rest) × (n ≡ 0 → (P.seen pour.old).rest ≡ [])) }
        ensures ok { OnOk result (GoesOn (P.seen pour.old).standing (P.seen pour.new).standing) }
        ensures err { OnErr result (Halts (P.seen pour.old).standing (P.seen pour.new).standing) }
    {
        let len = self.end - self.start;
        self.room.copy_within(self.start..self.end, 0);
        let n = pour_behind(pour, &mut self.room, len)?;
        self.start = 0;
        self.end = len + n;
        Ok(n)
    }
}

/// Pours bytes behind the first `len`, and returns their number.
fn pour_behind<P: Pour>(pour: &mut P, room: &mut [u8], len: usize) -> Result<usize, Stopped>
    requires { len < length room.old }
    ensures size { length room.new ≡ length room.old }
    ensures within { IfOk result (λ n. len + n ≤ length room.new) }
    ensures poured { IfOk result (λ n. (P.seen pour.old).told ≡ true → ((P.seen pour.new).told ≡ true)
        × (take (len + n) room.new ++ (P.seen pour.new).rest ≡ take len room.old ++ (P.seen pour.old).rest)
        × (n ≡ 0 → (P.seen pour.old).rest ≡ [])) }
    ensures ok { OnOk result (GoesOn (P.seen pour.old).standing (P.seen pour.new).standing) }
    ensures err { OnErr result (Halts (P.seen pour.old).standing (P.seen pour.new).standing) }
{
    let n = pour.pour(&mut room[len..])?;
    Ok(n)
}
