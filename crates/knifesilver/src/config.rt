//! What an end is made with.
ghost use Rattle.std.specs.Prelude.{◌≡◌, ◌≢◌, ◌≤◌, ◌^◌, ◌+◌, IfErr, IfNone, IfOk, IfSome, OnOk};
ghost use Rattle.std.specs.Option.{SomeIff};
ghost use Rattle.knifesilver.specs.Answers.{IsRefused};
ghost use Rattle.knifesilver.specs.Configs.{CanBeTaken, SaysWrong, chosen, exponent_of};

use crate::answers::{BAD_BLOCK_SIZE, BAD_BODY_LIMIT, BAD_REMEMBERED, BAD_SIZE, NO_MEMORY};
use coap_types::{
    BodyLimit, DEFAULT_BODY_LIMIT, DEFAULT_REMEMBERED, MAX_BODY_LIMIT, MAX_REMEMBERED, MAX_SZX,
    Remembered, Szx,
};

/// C's `ks_config`. All zero, it says nothing: each number is then the usual one.
#[repr(C)]
#[derive(Clone, Copy)]
pub struct KsConfig {
    /// How many bytes the struct has, or 0.
    pub size: u32,
    /// How many bytes a block has at most: 16, 32, .. 1,024; or 0 for 1,024.
    pub block_size: u32,
    /// How many bytes a body has at most: 1 to 1,048,576; or 0 for 65,536.
    pub body_limit: u32,
    /// How many messages are remembered: 1 to 1,048,576; or 0 for 4,096.
    pub remembered: u32,
    /// How many changes a window of a server's store takes: 1 to 4,194,303, or 0 for that.
    pub changes: u32,
    /// The version after which a server's versions begin: a multiple of 2^24 below 2^63.
    pub base: u64,
}

// How many bytes a configuration has.
const CONFIG_LEN: u32 = 32;
// How many bytes a block has at most, where no other number is chosen (RFC 7959, section 2.2).
const USUAL_BLOCK: u32 = 1_024;

const _: () = prove!(CONFIG_LEN == 32 && USUAL_BLOCK == 1_024 && MAX_SZX == 6);

// The blocks of so many bytes.
fn szx_of(block_size: u32) -> Option<Szx>
    ensures { result ≡ exponent_of block_size }
{
    let szx = match block_size {
        16 => 0,
        32 => 1,
        64 => 2,
        128 => 3,
        256 => 4,
        512 => 5,
        0 | USUAL_BLOCK => MAX_SZX,
        _ => return None,
    };
    Szx::new(szx)
}

// The limit of so many bytes.
fn limit_of(body_limit: u32) -> Option<BodyLimit>
    ensures { SomeIff result (body_limit ≤ MAX_BODY_LIMIT) (chosen DEFAULT_BODY_LIMIT body_limit) }
{
    if body_limit == 0 {
        Some(BodyLimit::default())
    } else {
        BodyLimit::new(body_limit as usize)
    }
}

// So many messages that are remembered.
fn remembered_of(remembered: u32) -> Option<Remembered>
    ensures { SomeIff result (remembered ≤ MAX_REMEMBERED) (chosen DEFAULT_REMEMBERED remembered) }
{
    if remembered == 0 {
        Some(Remembered::default())
    } else {
        Remembered::new(remembered)
    }
}

/// What a configuration chooses for either end.
#[derive(Drop)]
pub(crate) struct Choice {
    /// The size of the blocks.
    pub(crate) szx: Szx,
    /// The limit of the bodies.
    pub(crate) limit: BodyLimit,
    /// How many messages are remembered.
    pub(crate) remembered: Remembered,
}

/// What it chooses, or what is wrong with it.
pub(crate) fn choice_of(config: &KsConfig) -> Result<Choice, i32>
    ensures block { IfOk result (λ choice. 2 ^ (choice.szx + 4) ≡ chosen USUAL_BLOCK config.now.block_size) }
    ensures limit { IfOk result (λ choice. choice.limit ≡ chosen DEFAULT_BODY_LIMIT config.now.body_limit) }
    ensures remembered { IfOk result (λ choice. choice.remembered ≡ chosen DEFAULT_REMEMBERED config.now.remembered) }
    ensures taken { OnOk result (CanBeTaken config.now) }
    ensures refused { IfErr result IsRefused }
    ensures why { IfErr result (SaysWrong config.now) }
    ensures memory { IfErr result (λ answer. answer ≢ NO_MEMORY) }
{
    if config.size != 0 && config.size != CONFIG_LEN {
        return Err(BAD_SIZE);
    }
    let Some(szx) = szx_of(config.block_size) else {
        return Err(BAD_BLOCK_SIZE);
    };
    let Some(limit) = limit_of(config.body_limit) else {
        return Err(BAD_BODY_LIMIT);
    };
    let Some(remembered) = remembered_of(config.remembered) else {
        return Err(BAD_REMEMBERED);
    };
    Ok(Choice {
        szx,
        limit,
        remembered,
    })
}
