// In tables that are whole, a walk gives what the kinds of trays call a tray's contents. The function only carries the
// statement.
ghost use Rattle.walk_laws.specs.Contents.{WalkGivesParcels, WalkGivesStack, WalkGivesQueue};

pub fn walk_gives_contents()
    ensures parcels { WalkGivesParcels }
    ensures stack { WalkGivesStack }
    ensures queue { WalkGivesQueue }
{}
