//! The places of each layer: the groups and shifts that its checks have.
ghost use Rattle.std.specs.Prelude.{◌≡◌, ◌≢◌, ◌+◌, ◌<◌, ◌^◌, ◌==◌, OnOk, IfOk, All, AllPairs, length, map};
ghost use Rattle.std.specs.List.{list_any};
ghost use Rattle.s2_mode.specs.Shape.{information_bits};
ghost use Rattle.s2_matrix.specs.Total.{upto};
ghost use Rattle.s2_matrix.specs.Edges.{Gains, AreEdges};
ghost use Rattle.s2_matrix.specs.Layers.{layer_places, layer_code};

use crate::build::join;
use crate::counting_sort::sort_by_key;
use crate::jagged_list::JaggedList;
use crate::lists::address_count;
use s2_rows::Rows;
use std::alloc::{AllocError, Global};

/// Adds a place to the layer of one address, if that is one of the q from `first` on.
fn join_address(
    layers: &mut Vec<u32>,
    places: &mut Vec<u32>,
    address: usize,
    first: usize,
    q: usize,
    place: u32,
) -> Result<(), AllocError>
    requires small { address < 2 ^ 32 }
    requires paired { length places.old.items ≡ length layers.old.items }
    requires below { All (λ k. k < q) layers.old.items }
    ensures { OnOk result (Gains q layers.old.items places.old.items layers.new.items places.new.items (λ r. address == first + r) place 1) }
{
    if address < first {
        return Ok(());
    }
    let layer = address - first;
    if layer >= q {
        return Ok(());
    }
    join(layers, places, layer as u32, place)?;
    Ok(())
}

/// Adds a place to the layers that a row meets by one shift: those of its addresses that are among
/// the q from `first` on.
fn join_shift(
    layers: &mut Vec<u32>,
    places: &mut Vec<u32>,
    row: &[u32],
    first: usize,
    q: usize,
    place: u32,
) -> Result<(), AllocError>
    requires paired { length places.old.items ≡ length layers.old.items }
    requires below { All (λ k. k < q) layers.old.items }
    requires apart { AllPairs (λ x y. x ≢ y) row.now }
    ensures { OnOk result (Gains q layers.old.items places.old.items layers.new.items places.new.items (λ r. list_any (λ x. x == first + r) row.now) place (length row.now)) }
{
    for address in row {
        join_address(layers, places, *address as usize, first, q, place)?;
    }
    Ok(())
}

/// Adds the places of all groups and shifts.
fn join_places(layers: &mut Vec<u32>, places: &mut Vec<u32>, rows: &Rows) -> Result<(), AllocError>
    requires none { AreEdges (layer_code rows.now) 0 layers.old.items places.old.items }
    ensures { OnOk result (AreEdges (layer_code rows.now) (information_bits rows.now.shape) layers.new.items places.new.items) }
{
    let shape = rows.shape();
    let group = shape.group();
    let q = shape.q();
    for place in 0..shape.k() {
        let row = rows.row(place / group);
        join_shift(layers, places, row, place % group * q, q, place as u32)?;
    }
    Ok(())
}

/// The places that the layers meet, layer by layer.
pub(crate) fn layers(alloc: Global, rows: &Rows) -> Result<JaggedList, AllocError>
    ensures { IfOk result (λ t. t ≡ map (layer_places rows.now) (upto rows.now.shape.q)) }
{
    let count = address_count(rows);
    let mut layers = Vec::with_capacity(alloc, count)?;
    let mut places = Vec::with_capacity(alloc, count)?;
    join_places(&mut layers, &mut places, rows)?;
    let shape = rows.shape();
    let q = shape.q();
    let by_layer = sort_by_key(alloc, &layers, &places, q)?;
    Ok(by_layer)
}
