ghost use Rattle.std.specs.Prelude.{◌≡◌, IfOk, ⊤};
ghost use Rattle.std.specs.Borrow.{sem, follows_so};
ghost use Rattle.std.specs.Option.{option_copied};
ghost use Rattle.std.specs.FinMap.{get};
ghost use Rattle.text_store.specs.Loading.{IsNamed, Loaded, NO_NAME};
ghost use Rattle.shard_core.specs.Loaded.{shard_store};

use crate::shard::Shard;
use base_core::{Digest, Fault};
use text_store::{Nodes, Texts};

impl<N: Nodes> Texts for Shard<N> {
    ghost use Rattle.std.specs.Prelude.{refl};
    ghost use Rattle.std.proofs.Common.{ap, ◌∙◌};
    ghost use Rattle.shard_core.specs.Shards.{ShardState};

    ghost store = { shard_store N.store };

    ghost alike_itself = { λ a. record { nodes = N.alike_itself a.nodes; rest = refl } };

    ghost alike_onward = { λ a b c first second. record { nodes = N.alike_onward a.nodes b.nodes c.nodes first.nodes second.nodes; rest = second.rest ∙ ap {A = ShardState N} (λ s. record s { nodes = c.nodes }) first.rest } };

    ghost alike_texts = { λ a b alike. N.alike_texts a.nodes b.nodes alike.nodes };

    fn load(&mut self, d: &Digest) -> Result<Option<&[u8]>, Fault> {
        self.tries.nodes.load(d)
    }

    fn loads(&self) -> u64 {
        self.tries.nodes.loads()
    }
}
