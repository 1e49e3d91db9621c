//! Laws of the coherence protocol. Their function does nothing: a law is a contract.

ghost use Rattle.memory_contracts.specs.Protocol.Walks.{WalksMesi, WalksMsi};
ghost use Rattle.memory_contracts.specs.Protocol.Laws.{ContentStands, CurrentIsContent, EventsKeepCoherence, GrantsAreAwaited, LeavingAwaitsAnswer, LinesStayCoherent, OneFromHome, OrderIsFree, OwnedHasContent, OwnedIsAlone, OwnedIsNoted, RegisterAwaitsLine, SharedHasContent};

/// A line of memory is coherent after every list of events, in every order, for any number of nodes and under each
/// protocol: its content changes by writes alone, whoever may read it reads its content, and whoever may write it is
/// alone with it. The walks are lists of events that go through every row of the tables.
pub fn lines_stay_coherent()
    ensures lists { LinesStayCoherent }
    ensures events { EventsKeepCoherence }
    ensures current { CurrentIsContent }
    ensures stands { ContentStands }
    ensures shared { SharedHasContent }
    ensures owned { OwnedHasContent }
    ensures alone { OwnedIsAlone }
    ensures noted { OwnedIsNoted }
    ensures one { OneFromHome }
    ensures awaited { GrantsAreAwaited }
    ensures register { RegisterAwaitsLine }
    ensures leaving { LeavingAwaitsAnswer }
    ensures order { OrderIsFree }
    ensures walk_msi { WalksMsi }
    ensures walk_mesi { WalksMesi }
{}
