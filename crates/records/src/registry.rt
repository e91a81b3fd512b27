// A registry: a set of record kinds, asked by code.
ghost use Rattle.std.specs.Prelude.{◌≡◌, List, length};
ghost use Rattle.records.specs.Codes.{code_with};
ghost use Rattle.records.specs.Services.{Services, LawfulService, single, or_else, sharing_of, checked_by, written_by, canonical_by};
ghost use Rattle.records.specs.Verdicts.{Filled};
ghost use Rattle.records.specs.declared.code.Code.{Code as CodeOf};
ghost use Rattle.std.proofs.Common.{rules};

use crate::code::Code;
use crate::kind::RecordKind;
use crate::refusal::{LookupRefusal, RecordRefusal, WriteRefusal};

pub trait Registry {
    // how each code is served
    ghost services: { Self → Services };

    // Whether entries of a code may share a packet, if a kind serves it.
    fn sharing(&self, code: Code) -> Option<bool>
        ensures { result ≡ sharing_of (services self.now code) };

    // The length of the canonical data, or the refusal.
    fn check(
        &self,
        code: Code,
        flags: u16,
        data: &[u8],
    ) -> Result<usize, LookupRefusal<RecordRefusal>>
        ensures { result ≡ checked_by (services self.now code) flags «data».now };

    // Writes the canonical data into a part of just its length, and answers the canonical flags.
    // A refusal leaves the part as it was.
    fn write(
        &self,
        code: Code,
        flags: u16,
        data: &[u8],
        part: &mut [u8],
    ) -> Result<u16, LookupRefusal<WriteRefusal>>
        ensures answer { result ≡ written_by (services self.now code) flags «data».now (length part.old) }
        ensures part { Filled result (canonical_by (services self.now code) flags «data».now) part.old part.new };

    ghost lawful: { (r : Self) (code : CodeOf) → LawfulService (services r code) };
}

// The registry of one kind.
#[derive(Clone, Copy)]
pub struct Single<K> {
    pub kind: K,
}

// `check` and `write` differ in what they ask of the kind: one function for both would take that as a closure, and be longer.
impl<K: RecordKind> Registry for Single<K> {
    ghost services = { λ s. single (code_with K.RecordKind.MESSAGE_TYPE K.RecordKind.DATA_TYPE) K.RecordKind.SHARES (K.RecordKind.verdict s.kind) };

    ghost lawful = { Prim.search rules };

    fn sharing(&self, code: Code) -> Option<bool> {
        let listing = self.kind.listing();
        (listing.code == code).then_some(listing.shares)
    }

    fn check(
        &self,
        code: Code,
        flags: u16,
        data: &[u8],
    ) -> Result<usize, LookupRefusal<RecordRefusal>> {
        if self.kind.listing().code != code {
            return Err(LookupRefusal::UnknownCode);
        }
        self.kind.check(flags, data).map_err(LookupRefusal::Kind)
    }

    fn write(
        &self,
        code: Code,
        flags: u16,
        data: &[u8],
        part: &mut [u8],
    ) -> Result<u16, LookupRefusal<WriteRefusal>> {
        if self.kind.listing().code != code {
            return Err(LookupRefusal::UnknownCode);
        }
        self.kind
            .write(flags, data, part)
            .map_err(LookupRefusal::Kind)
    }
}

// Two registries as one; a code that both serve is served by the left.
#[derive(Clone, Copy)]
pub struct Chain<L, R> {
    pub left: L,
    pub right: R,
}

// `check` and `write` differ in what they ask of the registries, as in `Single`.
impl<L: Registry, R: Registry> Registry for Chain<L, R> {
    ghost services = { λ s code. or_else (L.Registry.services s.left code) (R.Registry.services s.right code) };

    ghost lawful = { Prim.search rules };

    fn sharing(&self, code: Code) -> Option<bool> {
        self.left.sharing(code).or_else(|| self.right.sharing(code))
    }

    fn check(
        &self,
        code: Code,
        flags: u16,
        data: &[u8],
    ) -> Result<usize, LookupRefusal<RecordRefusal>> {
        match self.left.check(code, flags, data) {
            Err(LookupRefusal::UnknownCode) => self.right.check(code, flags, data),
            answer => answer,
        }
    }

    fn write(
        &self,
        code: Code,
        flags: u16,
        data: &[u8],
        part: &mut [u8],
    ) -> Result<u16, LookupRefusal<WriteRefusal>> {
        match self.left.write(code, flags, data, part) {
            Err(LookupRefusal::UnknownCode) => self.right.write(code, flags, data, part),
            answer => answer,
        }
    }
}
