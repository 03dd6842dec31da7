// Fields of a frame, as a link gives them.
ghost use Rattle.std.specs.Prelude.{◌≡◌, ◌<◌, ◌≤◌, ◌∷◌, [], ℕ, List, length, slice_index, IfOk, IfErr, OnOk};
ghost use Rattle.std.specs.Int.{w32, w64, to_be_bytes};
ghost use Rattle.worker_protocol.specs.Takes.{Takes, head_bytes, end_bytes, Filled, FaultLeaves, Refutes, IsShort, Offers, OffersMany};

use crate::replies::cause::{LostCause, ReceiveFault};
use base_devices::{DeviceError, Link};
use base_text::Sum;
use std::alloc::Global;

/// Receives until the buffer is full, or returns how much came before the link ended.
fn receive_all<L: Link>(link: &mut L, buf: &mut [u8]) -> Result<Option<u64>, DeviceError>
    ensures { Filled result buf.new (L.link_state link.old) (L.link_state link.new) }
{
    let mut filled = 0usize;
    while filled < buf.len() {
        let n = link.receive(&mut buf[filled..])?;
        if n == 0 {
            return Ok(Some(filled as u64));
        }
        filled += n;
    }
    Ok(None)
}

/// Receives until the buffer is full. This many bytes of the reply were received before.
fn full<L: Link>(link: &mut L, before: u64, buf: &mut [u8]) -> Result<(), ReceiveFault>
    ensures takes { OnOk result (Takes (L.link_state link.old) (L.link_state link.new) buf.new) }
    ensures bytes { (i : ℕ) → slice_index buf.new i < 256 }
    ensures lost { IfErr result (λ e. FaultLeaves e before (L.link_state link.old) (L.link_state link.new)) }
    ensures steady { IfErr result (λ e. Refutes e (OffersMany (L.link_state link.old) (length buf.new))) }
    ensures short { IfErr result IsShort }
{
    match receive_all(link, buf) {
        Ok(None) => Ok(()),
        Ok(Some(n)) => Err(ReceiveFault::Lost(LostCause::Ended {
            at: before.saturating_add(n),
        })),
        Err(DeviceError::Failed) => Err(ReceiveFault::Lost(LostCause::Device)),
        Err(DeviceError::NoMemory) => Err(ReceiveFault::NoMemory),
    }
}

/// One byte.
fn receive_byte<L: Link>(link: &mut L, before: u64) -> Result<u8, ReceiveFault>
    ensures takes { IfOk result (λ b. Takes (L.link_state link.old) (L.link_state link.new) (b ∷ [])) }
    ensures lost { IfErr result (λ e. FaultLeaves e before (L.link_state link.old) (L.link_state link.new)) }
    ensures steady { IfErr result (λ e. Refutes e (OffersMany (L.link_state link.old) 1)) }
    ensures short { IfErr result IsShort }
{
    let mut buf = [0u8; 1];
    full(link, before, &mut buf)?;
    Ok(buf[0])
}

/// The length of a body.
fn receive_length<L: Link>(link: &mut L, before: u64) -> Result<u32, ReceiveFault>
    ensures takes { IfOk result (λ n. Takes (L.link_state link.old) (L.link_state link.new) (to_be_bytes w32 n)) }
    ensures lost { IfErr result (λ e. FaultLeaves e before (L.link_state link.old) (L.link_state link.new)) }
    ensures steady { IfErr result (λ e. Refutes e (OffersMany (L.link_state link.old) 4)) }
    ensures short { IfErr result IsShort }
{
    let mut buf = [0u8; 4];
    full(link, before, &mut buf)?;
    Ok(u32::from_be_bytes(buf))
}

/// A number of 8 bytes.
fn receive_number<L: Link>(link: &mut L, before: u64) -> Result<u64, ReceiveFault>
    ensures takes { IfOk result (λ n. Takes (L.link_state link.old) (L.link_state link.new) (to_be_bytes w64 n)) }
    ensures lost { IfErr result (λ e. FaultLeaves e before (L.link_state link.old) (L.link_state link.new)) }
    ensures steady { IfErr result (λ e. Refutes e (OffersMany (L.link_state link.old) 8)) }
    ensures short { IfErr result IsShort }
{
    let mut buf = [0u8; 8];
    full(link, before, &mut buf)?;
    Ok(u64::from_be_bytes(buf))
}

/// A digest.
fn receive_sum<L: Link>(link: &mut L, before: u64) -> Result<Sum, ReceiveFault>
    ensures takes { IfOk result (λ s. Takes (L.link_state link.old) (L.link_state link.new) s.0) }
    ensures lost { IfErr result (λ e. FaultLeaves e before (L.link_state link.old) (L.link_state link.new)) }
    ensures steady { IfErr result (λ e. Refutes e (OffersMany (L.link_state link.old) 20)) }
    ensures short { IfErr result IsShort }
{
    let mut buf = [0u8; 20];
    full(link, before, &mut buf)?;
    Ok(Sum(buf))
}

/// This many bytes.
pub(crate) fn receive_bytes<L: Link>(
    alloc: Global,
    link: &mut L,
    before: u64,
    count: u32,
) -> Result<Vec<u8>, ReceiveFault>
    ensures takes { IfOk result (λ v. Takes (L.link_state link.old) (L.link_state link.new) v.items) }
    ensures length { IfOk result (λ v. length v.items ≡ count) }
    ensures lost { IfErr result (λ e. FaultLeaves e before (L.link_state link.old) (L.link_state link.new)) }
    ensures steady { IfErr result (λ e. Refutes e (OffersMany (L.link_state link.old) count)) }
    ensures short { IfErr result IsShort }
{
    let mut body = vec![in alloc; 0u8; count as usize]?;
    full(link, before, body.as_mut_slice())?;
    Ok(body)
}

/// A frame's type and the length of its body.
pub(crate) fn receive_head<L: Link>(link: &mut L, before: u64) -> Result<(u8, u32), ReceiveFault>
    ensures takes { IfOk result (λ x. Takes (L.link_state link.old) (L.link_state link.new) (head_bytes x)) }
    ensures lost { IfErr result (λ e. FaultLeaves e before (L.link_state link.old) (L.link_state link.new)) }
    ensures steady { IfErr result (λ e. Refutes e (OffersMany (L.link_state link.old) 5)) }
    ensures short { IfErr result IsShort }
{
    let kind = receive_byte(link, before)?;
    let length = receive_length(link, before.saturating_add(1))?;
    Ok((kind, length))
}

/// The number and the digest that end an item.
pub(crate) fn receive_end<L: Link>(link: &mut L, before: u64) -> Result<(u64, Sum), ReceiveFault>
    ensures takes { IfOk result (λ x. Takes (L.link_state link.old) (L.link_state link.new) (end_bytes x)) }
    ensures lost { IfErr result (λ e. FaultLeaves e before (L.link_state link.old) (L.link_state link.new)) }
    ensures steady { IfErr result (λ e. Refutes e (OffersMany (L.link_state link.old) 28)) }
    ensures short { IfErr result IsShort }
{
    let number = receive_number(link, before)?;
    let sum = receive_sum(link, before.saturating_add(8))?;
    Ok((number, sum))
}
