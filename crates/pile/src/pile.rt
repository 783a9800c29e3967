// Layers on a base, one on the other.
ghost use Rattle.std.specs.Prelude.{◌≡◌, [], ◌∷◌, ◌++◌, is_ok, if◌then◌else◌};
ghost use Rattle.rulebook.specs.Meanings.{NeverMilder};
ghost use Rattle.pile.specs.Choices.{chosen_layer};
ghost use Rattle.pile.specs.Piles.{raised_by_all, pile_meaning};
ghost use Rattle.pile.specs.PileLaws.{piled_lawful};

use crate::choice::LayerChoice;
use rulebook::{Rulebook, Verdict};
use std::alloc::{AllocError, Global};

// A base and the layers on it, the lowest first.
#[derive(Drop)]
pub struct Pile<B> {
    base: B,
    layers: Vec<LayerChoice>,
}

// The verdict that the layers make of the one below them, one after the other.
fn raise_all(layers: &[LayerChoice], window: &[i32], below: Verdict) -> Verdict
    ensures { result ≡ raised_by_all layers.now window.now below }
{
    layers
        .iter()
        .fold(below, |verdict, layer| layer.raise(window, verdict))
}

impl<B: Rulebook> Pile<B> {
    // A base with nothing on it yet.
    pub fn new(heap: Global, base: B) -> Pile<B>
        ensures base { result.base ≡ base }
        ensures layers { result.layers.items ≡ [] }
        ensures meaning { pile_meaning B.meaning result ≡ B.meaning base }
    {
        Pile {
            base,
            layers: Vec::new(heap),
        }
    }

    // Lays a layer on top. Where there is no memory for it, the pile is as before.
    pub fn lay(&mut self, layer: LayerChoice) -> Result<(), AllocError>
        ensures base { self.new.base ≡ self.old.base }
        ensures layers { self.new.layers.items ≡ (if is_ok result then self.old.layers.items ++ (layer ∷ []) else self.old.layers.items) }
        ensures meaning { pile_meaning B.meaning self.new ≡ (if is_ok result then chosen_layer layer (pile_meaning B.meaning self.old) else pile_meaning B.meaning self.old) }
    {
        self.layers.push(layer)?;
        Ok(())
    }

    // The base. The whole pile is never milder than it.
    #[tactic(auto, using(crate::specs::PileLaws::piled_never_milder))]
    pub fn base(&self) -> &B
        ensures base { result.now ≡ self.now.base }
        ensures never_milder { NeverMilder (pile_meaning B.meaning self.now) (B.meaning result.now) }
    {
        &self.base
    }
}

impl<B: Rulebook> Rulebook for Pile<B> {
    ghost meaning = { pile_meaning B.meaning };

    ghost lawful = { λ b. piled_lawful b.layers.items (B.meaning b.base) (B.lawful b.base) };

    fn judge(&mut self, unit: u32, window: &[i32]) -> Verdict {
        let below = self.base.judge(unit, window);
        raise_all(&self.layers, window, below)
    }
}
