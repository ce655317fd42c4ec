ghost use Rattle.flash.specs.Laws.{CutsAlterOnlyTheirWrite, CutsKeepLimits, RefusalsWriteNothing, WritesAreReadBack};

// The laws of writes and of power cuts in them. The call does nothing: its contract has them proved.
pub fn laws_of_writes_hold()
    ensures places { CutsAlterOnlyTheirWrite }
    ensures limits { CutsKeepLimits }
    ensures refusals { RefusalsWriteNothing }
    ensures reads { WritesAreReadBack }
{}
