//! What is known of a file but for its bytes: its kind, its links and its size. Which bytes it has is
//! read elsewhere.

ghost use Rattle.std.specs.Prelude.{◌≡◌, ◌≢◌, IsTrue, is_err, IfOk, IfSome, option_map};
ghost use Rattle.layout_bytes.specs.declared.node.NodeKind.TheVariants.{Free};
ghost use Rattle.fs_files.specs.Asks.{MayLook};
ghost use Rattle.fs_files.specs.Calls.{facts_of, files_in};
ghost use Rattle.fs_files.specs.Effects.{LooksOnly};

use crate::draft::Draft;
use base_types::ReadFault;
use engine_blocks::Blocks;
use layout_node::NodeKind;

/// What a node in use is, but for its bytes.
#[derive(Clone, Copy)]
pub struct FileFacts {
    pub kind: NodeKind,
    pub links: u32,
    /// In bytes.
    pub size: u64,
}

impl<'a> Draft<'a> {
    /// What node `number` is as the draft has it. `None` where it isn't in use.
    ///
    /// # Errors
    /// A read of the disk failed, which the disk has counted.
    pub fn look<S: Blocks>(
        &self,
        blocks: &mut S,
        number: u32,
    ) -> Result<Option<FileFacts>, ReadFault>
        requires { MayLook S.tells (S.state blocks.old) self.now number }
        ensures facts { IsTrue S.tells → IfOk result (λ found. found ≡ option_map facts_of (files_in (S.state blocks.old) self.now number)) }
        ensures used { IfOk result (λ found. IfSome found (λ f. f.kind ≢ Free)) }
        ensures looks { LooksOnly S.tells (is_err result) (S.state blocks.old) (S.state blocks.new) }
    {
        match self.open(blocks, number)? {
            Some(file) => Ok(Some(file.facts)),
            None => Ok(None),
        }
    }
}
