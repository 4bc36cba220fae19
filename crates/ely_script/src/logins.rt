//! Reading the arguments of the steps of a login, from left to right.

ghost use Rattle.std.specs.Prelude.{◌≡◌};
ghost use Rattle.ely_base.specs.Refused.{Gives};
ghost use Rattle.ely_script.specs.LoginLines.{mech_at, is_nonce, nonce_at, open_of, message_at, plain_line_of, ctx_rest_of, first_line_of, final_line_of, request_of, digest_line_of, only_ctx_at, permission_at, allows_of};

use crate::args::{Args, Word};
use crate::command::Verb;
use crate::limits::{MAX_NONCE_BYTES, MAX_PERMISSION_BYTES};
use crate::word::mech_word;
use ely_base::{Bytes, CtxId, Refused, are_printable_but, refused_as};
use ely_digest_msg::read_authorization;
use ely_login::BadLine;
use ely_plain::{PlainMsg, read_plain};
use ely_row::Mech;
use ely_scram_msg::{read_client_first, read_client_last};
use std::alloc::Global;

fn read_mech(word: Word) -> Result<Mech, BadLine>
    ensures { result ≡ mech_at word.entry }
{
    if word.bytes == mech_word(Mech::Plain) {
        Ok(Mech::Plain)
    } else if word.bytes == mech_word(Mech::ScramSha1) {
        Ok(Mech::ScramSha1)
    } else if word.bytes == mech_word(Mech::ScramSha256) {
        Ok(Mech::ScramSha256)
    } else if word.bytes == mech_word(Mech::Digest) {
        Ok(Mech::Digest)
    } else if word.bytes == mech_word(Mech::DigestSha256) {
        Ok(Mech::DigestSha256)
    } else {
        Err(BadLine::Word(4))
    }
}

/// Whether the word may be a nonce.
fn is_nonce(word: &[u8]) -> bool
    ensures { result ≡ is_nonce word.now }
{
    1 <= word.len() && word.len() <= MAX_NONCE_BYTES && are_printable_but(b" \",\\", word)
}

/// The nonce that the fifth word is, where it is there.
fn read_nonce(alloc: Global, word: Option<Word>) -> Result<Option<Bytes>, Refused<BadLine>>
    ensures { Gives result (nonce_at word.entry) }
{
    match word {
        None => Ok(None),
        Some(word) => {
            if !is_nonce(word.bytes) {
                return Err(Refused::Fault(BadLine::Word(5)));
            }
            Ok(Some(Bytes::copy_of(alloc, word.bytes)?))
        }
    }
}

pub(crate) fn read_open(alloc: Global, args: Args) -> Result<Verb, Refused<BadLine>>
    ensures { Gives result (open_of args.entry) }
{
    let (ctx, args) = args.first()?;
    let (mech, args) = args.first()?;
    let nonce = args.last()?;
    let ctx = ctx.ctx(3)?;
    let mech = read_mech(mech)?;
    let nonce = read_nonce(alloc, nonce)?;
    Ok(Verb::Begin { ctx, mech, nonce })
}

/// The message of PLAIN of a base64 text.
fn read_message(alloc: Global, word: Word) -> Result<PlainMsg, Refused<BadLine>>
    ensures { Gives result (message_at word.entry) }
{
    let bytes = word.base64(alloc, 4)?;
    refused_as(read_plain(alloc, bytes.bytes()), BadLine::Plain)
}

pub(crate) fn read_plain_line(alloc: Global, args: Args) -> Result<Verb, Refused<BadLine>>
    ensures { Gives result (plain_line_of args.entry) }
{
    let (ctx, message) = args.two()?;
    let ctx = ctx.ctx(3)?;
    let message = read_message(alloc, message)?;
    Ok(Verb::Plain { ctx, message })
}

/// The login that a line names, and all that stands behind the space behind it.
fn read_ctx_rest(args: Args<'_>) -> Result<(CtxId, Word<'_>), BadLine>
    ensures { result ≡ ctx_rest_of args.entry }
{
    let (ctx, args) = args.first()?;
    let rest = args.rest()?;
    let ctx = ctx.ctx(3)?;
    Ok((ctx, rest))
}

pub(crate) fn read_first(alloc: Global, args: Args) -> Result<Verb, Refused<BadLine>>
    ensures { Gives result (first_line_of args.entry) }
{
    let (ctx, rest) = read_ctx_rest(args)?;
    let message = refused_as(read_client_first(alloc, rest.bytes), BadLine::Scram)?;
    Ok(Verb::First { ctx, message })
}

pub(crate) fn read_final(alloc: Global, args: Args) -> Result<Verb, Refused<BadLine>>
    ensures { Gives result (final_line_of args.entry) }
{
    let (ctx, rest) = read_ctx_rest(args)?;
    let message = refused_as(read_client_last(alloc, rest.bytes), BadLine::Scram)?;
    Ok(Verb::Last { ctx, message })
}

/// The login that a line names, the method and the target of its request, and all that stands behind the space behind them.
fn read_request(args: Args<'_>) -> Result<(CtxId, Word<'_>, Word<'_>, Word<'_>), BadLine>
    ensures { result ≡ request_of args.entry }
{
    let (ctx, args) = args.first()?;
    let (method, args) = args.first()?;
    let (target, args) = args.first()?;
    let rest = args.rest()?;
    let ctx = ctx.ctx(3)?;
    let method = method.raw(4)?;
    let target = target.raw(5)?;
    Ok((ctx, method, target, rest))
}

pub(crate) fn read_digest_line(alloc: Global, args: Args) -> Result<Verb, Refused<BadLine>>
    ensures { Gives result (digest_line_of args.entry) }
{
    let (ctx, method, target, rest) = read_request(args)?;
    let reply = refused_as(read_authorization(alloc, rest.bytes), BadLine::Digest)?;
    Ok(Verb::Digest {
        ctx,
        method: Bytes::copy_of(alloc, method.bytes)?,
        target: Bytes::copy_of(alloc, target.bytes)?,
        reply,
    })
}

/// The login of a line that has no other argument.
pub(crate) fn read_only_ctx(args: Args) -> Result<CtxId, BadLine>
    ensures { result ≡ only_ctx_at args.entry }
{
    let word = args.one()?;
    word.ctx(3)
}

/// A permission: a coded word of 1 to 255 bytes.
fn read_permission(alloc: Global, word: Word) -> Result<Bytes, Refused<BadLine>>
    ensures { Gives result (permission_at word.entry) }
{
    let wanted = word.coded(alloc, 4)?;
    if 1 <= wanted.bytes().len() && wanted.bytes().len() <= MAX_PERMISSION_BYTES {
        Ok(wanted)
    } else {
        Err(Refused::Fault(BadLine::Word(4)))
    }
}

pub(crate) fn read_allows(alloc: Global, args: Args) -> Result<Verb, Refused<BadLine>>
    ensures { Gives result (allows_of args.entry) }
{
    let (ctx, wanted) = args.two()?;
    let ctx = ctx.ctx(3)?;
    let wanted = read_permission(alloc, wanted)?;
    Ok(Verb::Allows { ctx, wanted })
}
