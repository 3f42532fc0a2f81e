//! A whole response: a header and what it answers (VIRTIO 1.2, 5.7.6.7 to 5.7.6.9).

ghost use Rattle.std.specs.Prelude.{◌≡◌, ◌≤◌, ◌++◌, Some, IfOk, OnErr, OnOk, IfSome, IsSome, length, take, drop};
ghost use Rattle.vg_list.specs.Front.{HasFront};
ghost use Rattle.vg_wire.specs.Header.{IsHeader, header_of};
ghost use Rattle.vg_wire.specs.declared.header.Header.{Header as HeaderFields};
ghost use Rattle.vg_wire_ext.specs.declared.response.Response.{Response as Responses};
ghost use Rattle.vg_wire_ext.specs.Response as spelling;
ghost use Rattle.vg_wire_ext.specs.Response.{FitsResponse, IsResponse, Spells, response_bytes, response_body, response_kind};

use std::alloc::{AllocError, Global};
use vg_list::Seq;
use vg_numbers::{put_u32, u32_at};
use vg_wire::kinds::{
    ERR_INVALID_PARAMETER, ERR_UNSPEC, OK_CAPSET, OK_CAPSET_INFO, OK_DISPLAY_INFO, OK_EDID,
    OK_NODATA, OK_RESOURCE_UUID,
};
use vg_wire::{Header, Modes, put_header, put_modes, read_header, read_modes};

/// A response, without its header.
#[derive(Debug, Drop)]
pub enum Response {
    /// OK_NODATA, kind 0x1100.
    Nodata,
    /// OK_DISPLAY_INFO, kind 0x1101.
    DisplayInfo {
        modes: Modes,
    },
    /// OK_CAPSET_INFO, kind 0x1102: a capability set's id, its highest version, and how many bytes it has at most.
    CapsetInfo {
        capset_id: u32,
        max_version: u32,
        max_size: u32,
    },
    /// OK_CAPSET, kind 0x1103: the bytes of a capability set.
    Capset {
        data: Seq<u8>,
    },
    /// OK_EDID, kind 0x1104: the base block.
    Edid {
        block: [u8; 128],
    },
    /// OK_RESOURCE_UUID, kind 0x1105: the UUID's bytes, the first of its text first.
    Uuid {
        bytes: [u8; 16],
    },
    /// An error, whose code 0x1200 to 0x1205 is its kind.
    Error {
        code: u32,
    },
}

impl Response {
    /// The kind of the response's header.
    pub fn kind(&self) -> u32
        ensures { result ≡ response_kind self.now }
    {
        match self {
            Response::Nodata => OK_NODATA,
            Response::DisplayInfo { .. } => OK_DISPLAY_INFO,
            Response::CapsetInfo { .. } => OK_CAPSET_INFO,
            Response::Capset { .. } => OK_CAPSET,
            Response::Edid { .. } => OK_EDID,
            Response::Uuid { .. } => OK_RESOURCE_UUID,
            Response::Error { code } => *code,
        }
    }
}

/// Adds the fields of OK_CAPSET_INFO.
#[tactic(auto, unfolding(crate::specs::Response::capset_info_body), using(vg_list::proofs::FrontLemmas::fronts))]
fn put_capset_info(
    out: &mut Vec<u8>,
    capset_id: u32,
    max_version: u32,
    max_size: u32,
) -> Result<(), AllocError>
    ensures ok { OnOk result (out.new.items ≡ out.old.items ++ spelling.capset_info_body capset_id max_version max_size) }
    ensures err { OnErr result (HasFront out.old.items out.new.items (spelling.capset_info_body capset_id max_version max_size)) }
{
    put_u32(out, capset_id)?;
    put_u32(out, max_version)?;
    put_u32(out, max_size)?;
    put_u32(out, 0)
}

/// Adds the fields of OK_EDID: the size of the block, the block, and zeros up to 1,024 bytes.
#[tactic(auto, unfolding(crate::specs::Response::edid_body), using(vg_list::proofs::FrontLemmas::fronts))]
fn put_edid(out: &mut Vec<u8>, block: &[u8; 128]) -> Result<(), AllocError>
    ensures ok { OnOk result (out.new.items ≡ out.old.items ++ spelling.edid_body block.now) }
    ensures err { OnErr result (HasFront out.old.items out.new.items (spelling.edid_body block.now)) }
{
    put_u32(out, 128)?;
    put_u32(out, 0)?;
    out.extend_from_slice(block)?;
    out.extend_from_slice(&[0; 896])
}

/// Adds what follows the header.
#[tactic(auto, using(vg_list::proofs::FrontLemmas::fronts))]
fn put_response(out: &mut Vec<u8>, response: &Response) -> Result<(), AllocError>
    ensures ok { OnOk result (out.new.items ≡ out.old.items ++ response_body response.now) }
    ensures err { OnErr result (HasFront out.old.items out.new.items (response_body response.now)) }
{
    match response {
        Response::DisplayInfo { modes } => put_modes(out, modes),
        Response::CapsetInfo {
            capset_id,
            max_version,
            max_size,
        } => put_capset_info(out, *capset_id, *max_version, *max_size),
        Response::Capset { data } => out.extend_from_slice(data.as_slice()),
        Response::Edid { block } => put_edid(out, block),
        Response::Uuid { bytes } => out.extend_from_slice(bytes),
        Response::Nodata | Response::Error { .. } => out.extend_from_slice(&[]),
    }
}

/// How many bytes follow the header of a response that can be given.
fn size_of(response: &Response) -> usize
    ensures { IsResponse response.now → FitsResponse response.now → result ≡ length (response_body response.now) }
{
    match response {
        Response::Nodata => 0,
        Response::DisplayInfo { .. } => 384,
        Response::CapsetInfo { .. } => 16,
        Response::Capset { data } => data.len(),
        Response::Edid { .. } => 1032,
        Response::Uuid { .. } => 16,
        Response::Error { .. } => 0,
    }
}

/// The bytes of a response, with padding 0. The header has the kind of the response.
pub fn write_response(
    alloc: Global,
    header: &Header,
    response: &Response,
) -> Result<Vec<u8>, AllocError>
    requires { header.now.kind ≡ response_kind response.now }
    ensures { IfOk result (λ out. out.items ≡ response_bytes header.now response.now) }
{
    let mut out = Vec::with_capacity(alloc, size_of(response).saturating_add(24))?;
    append_response(&mut out, header, response)?;
    Ok(out)
}

/// Adds the bytes of a response, as `write_response` gives them, behind those that are there. It takes memory only where there
/// is no room for them; for want of it a front of them is added.
#[tactic(auto, using(vg_list::proofs::FrontLemmas::fronts))]
pub fn append_response(
    out: &mut Vec<u8>,
    header: &Header,
    response: &Response,
) -> Result<(), AllocError>
    requires { header.now.kind ≡ response_kind response.now }
    ensures ok { OnOk result (out.new.items ≡ out.old.items ++ response_bytes header.now response.now) }
    ensures err { OnErr result (HasFront out.old.items out.new.items (response_bytes header.now response.now)) }
{
    put_header(out, *header)?;
    put_response(out, response)
}

/// The fields of an OK_CAPSET_INFO.
#[tactic(auto, unfolding(crate::specs::Response::capset_info_of))]
fn read_capset_info(bytes: &[u8]) -> Response
    requires { length bytes.now ≡ 40 }
    ensures { result ≡ spelling.capset_info_of bytes.now }
{
    Response::CapsetInfo {
        capset_id: u32_at(bytes, 24),
        max_version: u32_at(bytes, 28),
        max_size: u32_at(bytes, 32),
    }
}

/// The block of an OK_EDID.
fn read_block(bytes: &[u8]) -> [u8; 128]
    requires { length bytes.now ≡ 1056 }
    ensures { result ≡ take 128 (drop 32 bytes.now) }
{
    let mut block = [0; 128];
    block.copy_from_slice(&bytes[32..160]);
    block
}

/// The bytes of an OK_RESOURCE_UUID.
fn read_uuid(bytes: &[u8]) -> [u8; 16]
    requires { length bytes.now ≡ 40 }
    ensures { result ≡ take 16 (drop 24 bytes.now) }
{
    let mut uuid = [0; 16];
    uuid.copy_from_slice(&bytes[24..40]);
    uuid
}

/// The response that a header of this kind begins, as far as its fields tell.
fn read_body(alloc: Global, kind: u32, bytes: &[u8]) -> Result<Option<Response>, AllocError>
    requires { 24 ≤ length bytes.now }
    ensures value { IfOk result (λ response. response ≡ spelling.body_of kind bytes.now) }
    ensures memory { OnErr result (IsSome (spelling.body_of kind bytes.now)) }
{
    if kind == OK_NODATA {
        return Ok(Some(Response::Nodata));
    }
    if kind == OK_DISPLAY_INFO && bytes.len() == 408 {
        let modes = read_modes(alloc, bytes)?;
        return Ok(Some(Response::DisplayInfo { modes }));
    }
    if kind == OK_CAPSET_INFO && bytes.len() == 40 {
        return Ok(Some(read_capset_info(bytes)));
    }
    if kind == OK_CAPSET {
        let data = bytes[24..].to_vec(alloc)?;
        return Ok(Some(Response::Capset {
            data: Seq::from_vec(data),
        }));
    }
    if kind == OK_EDID && bytes.len() == 1056 {
        let block = read_block(bytes);
        return Ok(Some(Response::Edid { block }));
    }
    if kind == OK_RESOURCE_UUID && bytes.len() == 40 {
        let bytes = read_uuid(bytes);
        return Ok(Some(Response::Uuid { bytes }));
    }
    if (ERR_UNSPEC..=ERR_INVALID_PARAMETER).contains(&kind) {
        return Ok(Some(Response::Error { code: kind }));
    }
    Ok(None)
}

/// The response that these bytes spell. None where they spell none: another length or kind, a mode
/// that is neither enabled nor zero, another size than 128 or bytes behind the block of an OK_EDID, or
/// padding that isn't 0.
pub fn read_response(alloc: Global, bytes: &[u8]) -> Result<Option<(Header, Response)>, AllocError>
    ensures found { IfOk result (λ read. IfSome read (λ pair. Spells pair.0 pair.1 bytes.now)) }
    // What is spelled is read as what it spells, so None comes exactly where nothing does.
    ensures only { IfOk result (λ read. (header : HeaderFields) (response : Responses) → IsHeader header → FitsResponse response
        → Spells header response bytes.now → read ≡ Some (header, response)) }
    // Memory is asked for only by bytes that have the kind and the length of a response.
    ensures memory { OnErr result ((24 ≤ length bytes.now) × IsSome (spelling.body_of (header_of bytes.now).kind bytes.now)) }
{
    let Some(header) = read_header(bytes) else {
        return Ok(None);
    };
    let Some(response) = read_body(alloc, header.kind, bytes)? else {
        return Ok(None);
    };
    let spelled = write_response(alloc, &header, &response)?;
    if spelled.as_slice() == bytes {
        Ok(Some((header, response)))
    } else {
        Ok(None)
    }
}
