//! How the server of a journal began, and each life of it: their bytes.
ghost use Rattle.std.specs.Prelude.{◌≡◌, ◌≤◌, ◌<◌, ◌+◌, ◌∷◌, ◌++◌, [], ℕ, List, length, OnOk};
ghost use Rattle.std.specs.Prelude.{IfErr, IfNone, IfOk, IfSome, IsOk};
ghost use Rattle.coap_journal.specs.Numbers.{number, short};
ghost use Rattle.coap_journal.specs.Records.{Begun, IsConfiguration, IsUnread, Woke, beginning_bytes};
ghost use Rattle.coap_journal.specs.Records.{configuration_bytes, life_bytes, record_bytes, seed_bytes};
ghost use Rattle.coap_journal.specs.declared.beginning.Beginning.{Beginning as BeginningSpec};
ghost use Rattle.coap_journal.specs.declared.beginning.Configuration.{Configuration as ConfigurationSpec};
ghost use Rattle.coap_journal.specs.declared.beginning.Life.{Life as LifeSpec};

use crate::numbers::{put_number, put_short, read_number, read_short};
use coap_types::{BodyLimit, Moment, Remembered, Szx};
use std::alloc::{AllocError, Allocator};
use thiserror::Error;

/// The number of the format that is written, and the only one that is read.
pub const FORMAT: u32 = 1;
/// The number of the law of the server: another one where the same inputs make another server.
pub const LAW: u32 = 1;

/// The kind of the first record: how the server began, and its first life.
pub const BEGUN: u8 = 7;
/// The kind of a further life.
pub const WOKE: u8 = 8;

// How many bytes a life takes.
const LIFE_LEN: usize = 32;
// How many a beginning and a life take, but for the numbers of the format and of the law.
const PARTS_LEN: usize = 80;

const _: () = prove!(FORMAT == 1 && LAW == 1 && BEGUN == 7 && WOKE == 8);

/// What a stranger must not guess.
#[derive(Clone, Copy, Debug, PartialEq, Eq)]
pub struct Seed {
    /// The word, which picks the first Message ID.
    pub word: u64,
    /// The first key of the hash by which messages are remembered.
    pub key0: u64,
    /// Its second key.
    pub key1: u64,
}

/// The numbers that a server is made with.
#[derive(Clone, Copy, Debug, PartialEq, Eq)]
pub struct Configuration {
    /// The size of a block.
    pub szx: Szx,
    /// The longest body.
    pub limit: BodyLimit,
    /// How many messages it remembers at most.
    pub remembered: Remembered,
    /// How many changes a window takes.
    pub changes: u32,
}

/// How a server began.
#[derive(Clone, Copy, Debug, PartialEq, Eq)]
pub struct Beginning {
    /// The numbers that it was made with.
    pub configuration: Configuration,
    /// What a stranger must not guess.
    pub seed: Seed,
    /// The number that its versions come after.
    pub base: u64,
}

/// The name that a machine gives to one boot of its own, of 128 bits.
#[derive(Clone, Copy, Debug, PartialEq, Eq)]
pub struct Boot {
    /// The first 64 bits.
    pub high: u64,
    /// The last 64 bits.
    pub low: u64,
}

/// A life of a server: from its start to its end, whenever that comes.
#[derive(Clone, Copy, Debug, PartialEq, Eq)]
pub struct Life {
    /// The boot of the machine in which it began.
    pub boot: Boot,
    /// How long the machine had been up, in milliseconds.
    pub uptime: u64,
    /// The moment of the server at that uptime.
    pub moment: Moment,
}

/// Why a journal is not begun with.
#[derive(Clone, Copy, Debug, PartialEq, Eq, Error)]
pub enum BeginError {
    /// It has another format.
    #[error("a journal of format {0}")]
    OtherFormat(u32),
    /// Its inputs are those of a server by another law.
    #[error("a journal of a server by law {0}")]
    OtherLaw(u32),
    /// Its first frame doesn't say how a server began.
    #[error("a journal without a beginning")]
    Unreadable,
}

fn put_life<A: Allocator>(out: &mut Vec<u8, A>, life: Life) -> Result<(), AllocError>
    ensures { OnOk result (out.new.items ≡ out.old.items ++ life_bytes life) }
{
    put_number(out, life.boot.high)?;
    put_number(out, life.boot.low)?;
    put_number(out, life.uptime)?;
    put_number(out, life.moment.0)
}

fn put_configuration<A: Allocator>(out: &mut Vec<u8, A>, c: Configuration) -> Result<(), AllocError>
    ensures { OnOk result (out.new.items ≡ out.old.items ++ configuration_bytes c) }
{
    put_short(out, u32::from(c.szx.get()))?;
    put_short(out, c.limit.get() as u32)?;
    put_short(out, c.remembered.get() as u32)?;
    put_short(out, c.changes)
}

fn put_seed<A: Allocator>(out: &mut Vec<u8, A>, seed: Seed) -> Result<(), AllocError>
    ensures { OnOk result (out.new.items ≡ out.old.items ++ seed_bytes seed) }
{
    put_number(out, seed.word)?;
    put_number(out, seed.key0)?;
    put_number(out, seed.key1)
}

fn put_beginning<A: Allocator>(out: &mut Vec<u8, A>, beginning: Beginning) -> Result<(), AllocError>
    ensures { OnOk result (out.new.items ≡ out.old.items ++ beginning_bytes beginning) }
{
    put_short(out, FORMAT)?;
    put_short(out, LAW)?;
    put_configuration(out, beginning.configuration)?;
    put_seed(out, beginning.seed)?;
    put_number(out, beginning.base)
}

/// The bytes of the first record: how a server began, and its first life.
pub fn begun_bytes<A: Allocator + Copy>(
    alloc: A,
    beginning: Beginning,
    life: Life,
) -> Result<Vec<u8, A>, AllocError>
    // A beginning is spelled with the format, the law, the configuration, the seed, the base and the first life.
    ensures { IfOk result (λ v. v.items ≡ record_bytes (Begun beginning life)) }
{
    let mut out = Vec::from_slice(alloc, &[BEGUN])?;
    put_beginning(&mut out, beginning)?;
    put_life(&mut out, life)?;
    Ok(out)
}

/// The bytes of the record of a further life.
pub fn woke_bytes<A: Allocator + Copy>(alloc: A, life: Life) -> Result<Vec<u8, A>, AllocError>
    // A further life is spelled with its boot, its uptime and its moment.
    ensures { IfOk result (λ v. v.items ≡ record_bytes (Woke life)) }
{
    let mut out = Vec::from_slice(alloc, &[WOKE])?;
    put_life(&mut out, life)?;
    Ok(out)
}

fn read_boot(bytes: &[u8]) -> Option<(Boot, &[u8])>
    ensures some { IfSome result (λ p. bytes.now ≡ number p.0.high ++ (number p.0.low ++ p.1.now)) }
    ensures left { IfSome result (λ p. length bytes.now ≡ length p.1.now + 16) }
    ensures lacks { IfNone result (length bytes.now < 16) }
{
    let (high, behind) = read_number(bytes)?;
    let (low, rest) = read_number(behind)?;
    Some((Boot { high, low }, rest))
}

fn read_life(bytes: &[u8]) -> Option<(Life, &[u8])>
    ensures some { IfSome result (λ p. bytes.now ≡ life_bytes p.0 ++ p.1.now) }
    ensures left { IfSome result (λ p. length bytes.now ≡ length p.1.now + 32) }
    ensures lacks { IfNone result (length bytes.now < 32) }
{
    let (boot, behind) = read_boot(bytes)?;
    let (uptime, behind) = read_number(behind)?;
    let (moment, rest) = read_number(behind)?;
    let moment = Moment(moment);
    Some((
        Life {
            boot,
            uptime,
            moment,
        },
        rest,
    ))
}

fn read_seed(bytes: &[u8]) -> Option<(Seed, &[u8])>
    ensures some { IfSome result (λ p. bytes.now ≡ seed_bytes p.0 ++ p.1.now) }
    ensures left { IfSome result (λ p. length bytes.now ≡ length p.1.now + 24) }
    ensures lacks { IfNone result (length bytes.now < 24) }
{
    let (word, behind) = read_number(bytes)?;
    let (key0, behind) = read_number(behind)?;
    let (key1, rest) = read_number(behind)?;
    Some((Seed { word, key0, key1 }, rest))
}

// The configuration of these numbers, where an end can have them.
fn configuration_of(szx: u32, limit: u32, remembered: u32, changes: u32) -> Option<Configuration>
    ensures some { IfSome result (λ c. c ≡ record {
      szx = szx;
      limit = limit;
      remembered = remembered;
      changes = changes;
    }) }
    ensures none { IfNone result (IsConfiguration (record {
      szx = szx;
      limit = limit;
      remembered = remembered;
      changes = changes;
    }) → ⊥) }
{
    let exponent = u8::try_from(szx).ok()?;
    let szx = Szx::new(exponent)?;
    let limit = BodyLimit::new(limit as usize)?;
    let remembered = Remembered::new(remembered)?;
    Some(Configuration {
        szx,
        limit,
        remembered,
        changes,
    })
}

fn read_configuration(bytes: &[u8]) -> Option<(Configuration, &[u8])>
    ensures some { IfSome result (λ p. bytes.now ≡ configuration_bytes p.0 ++ p.1.now) }
    ensures left { IfSome result (λ p. length bytes.now ≡ length p.1.now + 16) }
    ensures none { IfNone result ((c : ConfigurationSpec) (rest : List ℕ) → IsConfiguration c
        → bytes.now ≡ configuration_bytes c ++ rest → ⊥) }
{
    let (szx, behind) = read_short(bytes)?;
    let (limit, behind) = read_short(behind)?;
    let (remembered, behind) = read_short(behind)?;
    let (changes, rest) = read_short(behind)?;
    let configuration = configuration_of(szx, limit, remembered, changes)?;
    Some((configuration, rest))
}

// What stands after the numbers of the format and of the law.
fn read_parts(bytes: &[u8]) -> Option<(Beginning, Life)>
    ensures some { IfSome result (λ p. bytes.now ≡ configuration_bytes p.0.configuration
        ++ (seed_bytes p.0.seed ++ (number p.0.base ++ life_bytes p.1))) }
    ensures none { IfNone result ((b : BeginningSpec) (l : LifeSpec) → IsConfiguration b.configuration
        → bytes.now ≡ configuration_bytes b.configuration ++ (seed_bytes b.seed ++ (number b.base ++ life_bytes l))
        → ⊥) }
{
    if bytes.len() != PARTS_LEN {
        return None;
    }
    let Some((configuration, behind)) = read_configuration(bytes) else {
        return None;
    };
    let (seed, behind) = read_seed(behind)?;
    let (base, behind) = read_number(behind)?;
    let (life, _) = read_life(behind)?;
    Some((
        Beginning {
            configuration,
            seed,
            base,
        },
        life,
    ))
}

// What follows the numbers of the format and of the law, where these are the ones that are read.
fn read_versions(bytes: &[u8]) -> Result<&[u8], BeginError>
    ensures ok { IfOk result (λ rest. bytes.now ≡ short FORMAT ++ (short LAW ++ rest.now)) }
    ensures written { (rest : List ℕ) → bytes.now ≡ short FORMAT ++ (short LAW ++ rest) → IsOk result }
    ensures err { IfErr result (IsUnread (BEGUN ∷ bytes.now)) }
{
    let Some((format, behind)) = read_short(bytes) else {
        return Err(BeginError::Unreadable);
    };
    if format != FORMAT {
        return Err(BeginError::OtherFormat(format));
    }
    let Some((law, rest)) = read_short(behind) else {
        return Err(BeginError::Unreadable);
    };
    if law != LAW {
        return Err(BeginError::OtherLaw(law));
    }
    Ok(rest)
}

fn read_begun_parts(bytes: &[u8]) -> Result<(Beginning, Life), BeginError>
    ensures ok { IfOk result (λ p. bytes.now ≡ beginning_bytes p.0 ++ life_bytes p.1) }
    ensures written { (b : BeginningSpec) (l : LifeSpec) → IsConfiguration b.configuration
        → bytes.now ≡ beginning_bytes b ++ life_bytes l → IsOk result }
    ensures err { IfErr result (IsUnread (BEGUN ∷ bytes.now)) }
{
    match read_versions(bytes) {
        Ok(behind) => match read_parts(behind) {
            Some(begun) => Ok(begun),
            None => Err(BeginError::Unreadable),
        },
        Err(why) => Err(why),
    }
}

/// How a server began, and its first life, of the bytes of a first record.
pub fn read_begun(bytes: &[u8]) -> Result<(Beginning, Life), BeginError>
    // The beginning and the life that are read are those that the bytes spell.
    ensures ok { IfOk result (λ p. bytes.now ≡ record_bytes (Begun p.0 p.1)) }
    // A beginning that was written is read.
    ensures written { (b : BeginningSpec) (l : LifeSpec) → IsConfiguration b.configuration
        → bytes.now ≡ record_bytes (Begun b l) → IsOk result }
    // What isn't read is of the other format, or of the other law, that is told; or neither stands there, and no server
    // can begin so.
    ensures err { IfErr result (IsUnread bytes.now) }
{
    match bytes {
        [BEGUN, behind @ ..] => read_begun_parts(behind),
        _ => Err(BeginError::Unreadable),
    }
}

/// The life of a record, of the bytes that follow its kind.
pub fn read_woke(bytes: &[u8]) -> Option<Life>
    // The life that is read is the one that the bytes spell.
    ensures some { IfSome result (λ life. WOKE ∷ bytes.now ≡ record_bytes (Woke life)) }
    // A life that was written is read.
    ensures none { IfNone result ((life : LifeSpec) → bytes.now ≡ life_bytes life → ⊥) }
{
    if bytes.len() != LIFE_LEN {
        return None;
    }
    let (life, _) = read_life(bytes)?;
    Some(life)
}
