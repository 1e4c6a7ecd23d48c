//! A window that moves over what is poured.

ghost use Rattle.std.specs.Prelude.{◌≡◌, ◌≤◌, ◌<◌, ◌+◌, ◌++◌, true, false, length, IfOk, OnOk, OnErr};
ghost use Rattle.xdr_core.specs.Sources.{IsTold, Halts};
ghost use Rattle.xdr_core.specs.Reads.{Reads, Appends, Fills, finish_at};
ghost use Rattle.xdr_spec.specs.Format.{ends};
ghost use Rattle.xdr_core.specs.Windowed.{seen_by, Same, Passes, piece_at, padding_at};

use crate::error::{ReadXdr, Stopped};
use crate::held::Held;
use crate::pour::Pour;
use crate::source::{Words, append_piece};
use crate::words::{ZEROS, padding};
use std::alloc::Global;
use xdr_spec::{Why, XdrErr};

/// Reads XDR items from what is poured, through a buffer of 65,536 bytes that is reserved once. Its start is
/// `Window { pour, held, place: 0 }`.
// A loan in `pour` is known to end with the window only if the window owns no memory, and is made in place and not by a function.
// So the buffer is lent, and the fields are public.
#[derive(Drop)]
pub struct Window<'h, P> {
    /// What pours.
    pub pour: P,
    /// The bytes that were poured and not yet read.
    pub held: &'h mut Held,
    /// The offset of the first of them, or `u64::MAX` if it is larger.
    pub place: u64,
}

impl<'h, P: Pour + Drop> Window<'h, P> {
    /// Holds at least `n` bytes, if so many are left, and returns whether it does.
    fn need(&mut self, n: usize) -> Result<bool, Stopped>
        requires { n ≤ 64 }
        ensures same { IfOk result (λ _. Same (seen_by P.seen self.old) (seen_by P.seen self.new)) }
        ensures held { IfOk result (λ b. b ≡ true → n ≤ length self.new.held.now) }
        ensures short { IfOk result (λ b. b ≡ false → (length self.new.held.now < n)
            × (IsTold (seen_by P.seen self.old) → (seen_by P.seen self.new).input.rest ≡ self.new.held.now)) }
        ensures err { OnErr result (Halts (seen_by P.seen self.old).standing (seen_by P.seen self.new).standing) }
    {
        while self.held.len() < n {
            let poured = self.held.refill(&mut self.pour)?;
            if poured == 0 {
                return Ok(false);
            }
        }
        Ok(true)
    }

    /// The refusal of bytes that end too early.
    fn end(&self) -> XdrErr
        ensures { IsTold (seen_by P.seen self.now) → (seen_by P.seen self.now).input.rest ≡ self.now.held.now
            → result ≡ ends (seen_by P.seen self.now).input }
    {
        XdrErr {
            at: self.place.saturating_add(self.held.len() as u64),
            why: Why::End,
        }
    }

    fn skip(&mut self, n: usize)
        requires { n ≤ length self.old.held.now }
        ensures { Passes n (seen_by P.seen self.old) (seen_by P.seen self.new) }
    {
        self.held.skip(n);
        self.place = self.place.saturating_add(n as u64);
    }

    /// Appends `n` bytes, without padding.
    fn take_into(&mut self, n: usize, to: &mut Vec<u8>) -> Result<(), ReadXdr>
        ensures read { Appends (piece_at n) (seen_by P.seen self.old) (seen_by P.seen self.new) to.old.items to.new.items result }
        ensures len { OnOk result (length to.new.items ≡ length to.old.items + n) }
    {
        let mut left = n;
        while left > 0 {
            if !self.need(1)? {
                return Err(ReadXdr::Bad(self.end()));
            }
            let k = self.held.len().min(left);
            append_piece(to, &self.held.as_slice()[..k], k == left)?;
            self.skip(k);
            left -= k;
        }
        Ok(())
    }

    /// Fills a slice, without padding.
    fn take_slice(&mut self, to: &mut [u8]) -> Result<(), ReadXdr>
        requires { length to.old ≤ 64 }
        ensures len { length to.new ≡ length to.old }
        ensures read { Fills (piece_at (length to.old)) (seen_by P.seen self.old) (seen_by P.seen self.new) to.new result }
    {
        let n = to.len();
        if !self.need(n)? {
            return Err(ReadXdr::Bad(self.end()));
        }
        to.copy_from_slice(&self.held.as_slice()[..n]);
        self.skip(n);
        Ok(())
    }

    /// Checks that the padding of `n` bytes is 0, and skips it. The bytes began at the offset `at`.
    fn skip_padding(&mut self, n: usize, at: u64) -> Result<(), ReadXdr>
        ensures { Reads (padding_at n at) (seen_by P.seen self.old) (seen_by P.seen self.new) result }
    {
        let fill = padding(n);
        if !self.need(fill)? {
            return Err(ReadXdr::Bad(self.end()));
        }
        if self.held.as_slice()[..fill] != ZEROS[..fill] {
            return Err(ReadXdr::Bad(XdrErr {
                at: at.saturating_add((n / 4 * 4) as u64),
                why: Why::Padding,
            }));
        }
        self.skip(fill);
        Ok(())
    }
}

impl<'h, P: Pour + Drop> Words for Window<'h, P> {
    type Mark = ();

    ghost Kept = { P.Kept };

    ghost seen = { seen_by P.seen };

    ghost IsMark = { λ _ _. Unit {0} };

    ghost Stays = { λ _ _. Unit {0} };

    fn place(&self) -> u64 {
        self.place
    }

    fn mark(&self) -> () {}

    fn back(&mut self, _mark: ()) {}

    fn u32(&mut self) -> Result<u32, ReadXdr> {
        if !self.need(4)? {
            return Err(ReadXdr::Bad(self.end()));
        }
        let number = self.held.word();
        self.skip(4);
        Ok(number)
    }

    fn i32(&mut self) -> Result<i32, ReadXdr> {
        Ok(self.u32()?.cast_signed())
    }

    fn u64(&mut self) -> Result<u64, ReadXdr> {
        if !self.need(8)? {
            return Err(ReadXdr::Bad(self.end()));
        }
        let number = self.held.double_word();
        self.skip(8);
        Ok(number)
    }

    fn i64(&mut self) -> Result<i64, ReadXdr> {
        Ok(self.u64()?.cast_signed())
    }

    #[tactic(auto, unfolding(xdr_spec::specs::Format::boolean))]
    fn boolean(&mut self) -> Result<bool, ReadXdr> {
        let at = self.place;
        match self.u32()? {
            0 => Ok(false),
            1 => Ok(true),
            _ => Err(ReadXdr::Bad(XdrErr {
                at,
                why: Why::Boolean,
            })),
        }
    }

    fn fill(&mut self, to: &mut [u8]) -> Result<(), ReadXdr> {
        let at = self.place;
        let n = to.len();
        self.take_slice(to)?;
        self.skip_padding(n, at)
    }

    fn fixed_into(&mut self, n: usize, to: &mut Vec<u8>) -> Result<(), ReadXdr> {
        let at = self.place;
        self.take_into(n, to)?;
        self.skip_padding(n, at)
    }

    #[tactic(auto, unfolding(xdr_spec::specs::Format::opaque))]
    fn opaque_into(&mut self, max: u32, to: &mut Vec<u8>) -> Result<(), ReadXdr> {
        let at = self.place;
        let len = self.u32()?;
        if len > max {
            return Err(ReadXdr::Bad(XdrErr {
                at,
                why: Why::Limit,
            }));
        }
        self.fixed_into(len as usize, to)
    }

    fn finish(&mut self) -> Result<(), ReadXdr> {
        if self.need(1)? {
            return Err(ReadXdr::Bad(XdrErr {
                at: self.place,
                why: Why::Trailing,
            }));
        }
        Ok(())
    }
}
