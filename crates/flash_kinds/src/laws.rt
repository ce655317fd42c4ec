ghost use Rattle.flash_kinds.specs.CutRows.{CutRowsHold};
ghost use Rattle.flash.specs.Laws.{CutsAlterOnlyTheirWrite, CutsKeepLimits, RefusalsWriteNothing, WritesAreReadBack};

use flash::laws_of_writes_hold;

// The laws of the meaning of a flash. The call does nothing: its contract has them proved.
pub fn laws_hold()
    ensures places { CutsAlterOnlyTheirWrite }
    ensures limits { CutsKeepLimits }
    ensures refusals { RefusalsWriteNothing }
    ensures reads { WritesAreReadBack }
    ensures rows { CutRowsHold }
{
    laws_of_writes_hold();
}
