// Positions in the order of their texts.
ghost use Rattle.std.specs.Prelude.{IfOk, Contains};
ghost use Rattle.board_core.specs.Board.{Board};
ghost use Rattle.board_core.specs.Kept.{IsKept};
ghost use Rattle.mate_facts.specs.Entries.{AreApart};
ghost use Rattle.cert_order.specs.Order.{IsTextOrder};

use board_core::Position;
use sfen_text::write_sfen;
use std::alloc::{AllocError, Global};
use std::collections::BTreeMap;

/// The places of positions, of which none stands twice, in the order of the bytes of their SFEN
/// texts. Errors: want of memory alone.
pub fn text_order(alloc: Global, positions: &[Position]) -> Result<Vec<usize>, AllocError>
    requires apart { AreApart positions.now }
    requires kept { (b : Board) → Contains positions.now b → IsKept b }
    ensures { IfOk result (λ order. IsTextOrder positions.now order.items) }
{
    let mut by_text = BTreeMap::new(alloc);
    for (place, position) in positions.iter().enumerate() {
        by_text.insert(write_sfen(alloc, position)?, place)?;
    }
    let mut order = Vec::new(alloc);
    for place in by_text.values() {
        order.push(*place)?;
    }
    Ok(order)
}
