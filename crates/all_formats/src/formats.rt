//! The formats by their kinds.
ghost use Rattle.std.specs.Prelude.{◌≡◌, refl, MatchResult};
ghost use Rattle.model_maps.specs.Limits.{IsLimited};
ghost use Rattle.storage_api.specs.Formats.{RefusesToRead, RefusesToWrite};
ghost use Rattle.all_formats.specs.Meanings.{Reads, IsBadAt, text, Holds, IsStorable, BreaksAt, is_keywise};
ghost use Rattle.all_formats.specs.Laws.{lawful, Reads-or_bad, Reads-once, Reads-not_bad, IsBadAt-once, held-storable, storable-held, storable-or_breaks, BreaksAt-first, storable-breaks_nowhere, BreaksAt-once, BreaksAt-key, held-alone, by-keys};

use kdb_outside::Kind;
use key_set::KeySet;
use std::alloc::Global;
use storage_api::{Formats, ReadRefusal, WriteRefusal};

/// Every format that a mount can have.
#[derive(Clone, Copy)]
pub struct AllFormats;

impl Formats for AllFormats {
    ghost reads = { Reads };

    ghost is_bad_at = { IsBadAt };

    ghost text = { text };

    ghost holds = { Holds };

    ghost is_storable = { IsStorable };

    ghost breaks_at = { BreaksAt };

    ghost is_keywise = { is_keywise };

    ghost text_reads = { λ kind. (lawful kind).text_reads };

    ghost one_reading = { Reads-once };

    ghost read_is_storable = { λ kind. (lawful kind).read_is_storable };

    ghost read_is_limited = { λ kind. (lawful kind).read_is_limited };

    ghost empty_reads = { λ kind. (lawful kind).empty_reads };

    ghost reads_or_bad = { Reads-or_bad };

    ghost read_is_not_bad = { Reads-not_bad };

    ghost one_line = { IsBadAt-once };

    ghost held_is_storable = { held-storable };

    ghost storable_is_held = { storable-held };

    ghost storable_or_breaks = { storable-or_breaks };

    ghost breaks_first = { BreaksAt-first };

    ghost storable_breaks_nowhere = { storable-breaks_nowhere };

    ghost one_break = { BreaksAt-once };

    ghost breaks_at_a_key = { BreaksAt-key };

    ghost held_alone = { held-alone };

    ghost by_keys = { by-keys };

    ghost dump_is_keywise = { refl };

    ghost ini_is_keywise = { refl };

    fn read(&self, alloc: Global, kind: Kind, bytes: &[u8]) -> Result<KeySet, ReadRefusal>
        ensures { MatchResult result (λ keys. Reads kind bytes.now keys) (RefusesToRead (IsBadAt kind bytes.now)) }
    {
        match kind {
            Kind::Dump => dump_storage::read(alloc, bytes),
            Kind::SimpleIni => ini_storage::read(alloc, bytes),
            Kind::Hosts => hosts_storage::read(alloc, bytes),
            Kind::Json => json_storage::read(alloc, bytes),
        }
    }

    fn write(&self, alloc: Global, kind: Kind, keys: &KeySet) -> Result<Vec<u8>, WriteRefusal>
        requires { IsLimited keys.now }
        ensures text { MatchResult result (λ bytes. (bytes.items ≡ text kind keys.now) × IsStorable kind keys.now) (RefusesToWrite (BreaksAt kind keys.now)) }
    {
        match kind {
            Kind::Dump => dump_storage::write(alloc, keys),
            Kind::SimpleIni => ini_storage::write(alloc, keys),
            Kind::Hosts => hosts_storage::write(alloc, keys),
            Kind::Json => json_storage::write(alloc, keys),
        }
    }

    fn keywise(&self, kind: Kind) -> bool
        ensures { result ≡ is_keywise kind }
    {
        match kind {
            Kind::Dump | Kind::SimpleIni => true,
            Kind::Hosts | Kind::Json => false,
        }
    }
}
