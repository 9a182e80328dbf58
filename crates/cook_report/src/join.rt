// Mates' certificates joined into one list.
ghost use Rattle.std.specs.Prelude.{◌≡◌, ◌≤◌, ◌↔◌, ◌++◌, ◌∷◌, [], List, OnOk, IfOk, IfErr, Contains, length};
ghost use Rattle.bit_boards.specs.declared.piece.Side.{Side};
ghost use Rattle.board_core.specs.declared.moves.Move.{Move};
ghost use Rattle.board_core.specs.Board.{Board};
ghost use Rattle.mate_facts.specs.declared.entry.MateEntry.{MateEntry};
ghost use Rattle.mate_facts.specs.Entries.{positions_of};
ghost use Rattle.hand_dominance.specs.BorneOut.{AreKept};
ghost use Rattle.cert_text.specs.Certificate.{Mating, IsMateEntry, mate_form};
ghost use Rattle.cert_text.specs.Reading.{AreGood};
ghost use Rattle.cook_report.specs.Valid.{AreAllBorneOut, IsMateLine};
ghost use Rattle.cook_report.specs.Joined.{entries_in, AnswerEach, AreValid, CoversAsMuch, IsJoined, IsJoinedVersion, IsJoinEnd};
ghost use Rattle.cook_report.specs.Joining.{AreJoined, IsPlaced, MayBeTold};

use crate::JoinEnd;
use crate::listing::listing;
use cert_text::MateCertificate;
use hand_dominance::{Version, listing_laws};
use mate_facts::MateEntry;
use position_places::Places;
use shogi_rules::Problem;
use std::alloc::Global;

// The entries that are joined so far, and where their positions stand.
#[derive(Drop)]
struct Joined {
    entries: Vec<MateEntry>,
    places: Places,
}

// Joins one more entry: it is put behind the others where its position is new, and takes the place
// of one of its position whose rank is greater.
fn join(joined: &mut Joined, entry: &MateEntry, limit: usize) -> Result<(), JoinEnd>
    requires placed { IsPlaced joined.old }
    ensures placed { OnOk result (IsPlaced joined.new) }
    ensures joined { OnOk result ((p : Board) (seen : List MateEntry) → IsMateEntry p entry.now
        → AreJoined p limit seen joined.old.entries.items
        → AreJoined p limit (seen ++ entry.now ∷ []) joined.new.entries.items) }
    ensures too_many { IfErr result (λ end. (p : Board) (seen : List MateEntry)
        → AreJoined p limit seen joined.old.entries.items
        → IsJoinEnd limit (seen ++ entry.now ∷ []) end) }
{
    let place = joined.places.add(&entry.at)?;
    if place == joined.entries.len() {
        if place >= limit {
            return Err(JoinEnd::TooMany);
        }
        joined.entries.push(*entry)?;
    } else if entry.rank.number < joined.entries[place].rank.number {
        joined.entries[place] = *entry;
    }
    Ok(())
}

// Joins the entries of one more certificate, in their order.
fn join_all(joined: &mut Joined, certificate: &MateCertificate, limit: usize) -> Result<(), JoinEnd>
    requires placed { IsPlaced joined.old }
    ensures placed { OnOk result (IsPlaced joined.new) }
    ensures joined { OnOk result ((p : Board) (seen : List MateEntry)
        → certificate.now.problem.side ≡ p.side
        → AreJoined p limit seen joined.old.entries.items
        → AreJoined p limit (seen ++ certificate.now.entries) joined.new.entries.items) }
    ensures too_many { IfErr result (λ end. (p : Board) (seen : List MateEntry)
        → certificate.now.problem.side ≡ p.side
        → AreJoined p limit seen joined.old.entries.items
        → IsJoinEnd limit (seen ++ certificate.now.entries) end) }
{
    for entry in certificate.entries() {
        join(joined, entry, limit)?;
    }
    Ok(())
}

// The entries of all certificates, joined.
fn joined_entries(
    alloc: Global,
    problem: &Problem,
    certificates: &[MateCertificate],
    limit: usize,
) -> Result<Vec<MateEntry>, JoinEnd>
    requires { (c : Mating) → Contains certificates.now c
        → c.problem.side ≡ problem.now.position.side }
    ensures joined { IfOk result (λ entries. AreJoined problem.now.position limit
        (entries_in certificates.now) entries.items) }
    ensures told { IfOk result (λ entries. MayBeTold problem.now.position entries.items) }
    ensures too_many { IfErr result (IsJoinEnd limit (entries_in certificates.now)) }
{
    let mut joined = Joined {
        entries: Vec::new(alloc),
        places: Places::new(alloc),
    };
    for certificate in certificates {
        join_all(&mut joined, certificate, limit)?;
    }
    Ok(joined.entries)
}

// The version in which certificates are joined.
fn joined_version(certificates: &[MateCertificate]) -> Version
    ensures { IsJoinedVersion certificates.now result }
{
    for certificate in certificates {
        match certificate.version() {
            Version::Two => return Version::Two,
            Version::One => {}
        }
    }
    Version::One
}

/// The certificates of several mates of one attacker, joined into one that is about the problem. It
/// lists the positions of all, each with its least rank and, among the entries of that rank, the
/// first certificate's move. It is of version 2 where one of them is, else of version 1. It need
/// not list the problem, and lists nothing where the certificates are none. Errors: these positions
/// are more than `limit`; want of memory.
pub fn join_mates(
    alloc: Global,
    problem: &Problem,
    certificates: &[MateCertificate],
    limit: usize,
) -> Result<MateCertificate, JoinEnd>
    requires { (c : Mating) → Contains certificates.now c
        → c.problem.side ≡ problem.now.position.side }
    ensures problem { IfOk result (λ joined. joined.problem ≡ problem.now.position) }
    ensures version { IfOk result (λ joined. IsJoinedVersion certificates.now joined.version) }
    ensures entries { IfOk result (λ joined. (entry : MateEntry)
        → Contains joined.entries entry ↔ IsJoined certificates.now entry) }

    // Where the entries of each are borne out in its own version, so are these in theirs; and
    // what covers a position that one of them lists covers one that is listed here.
    ensures borne_out { IfOk result (λ joined. (attacker : Side)
        → ((c : Mating) → Contains certificates.now c → AreAllBorneOut attacker c)
        → AreAllBorneOut attacker joined) }
    ensures covers { IfOk result (λ joined. (attacker : Side) (c : Mating)
        → Contains certificates.now c → CoversAsMuch attacker c joined) }

    // So it shows that a check of the problem mates, where each evasion to the check leads to the
    // problem of one of them, and each is valid for its own.
    ensures line { IfOk result (λ joined. (check : Move) → AreValid certificates.now
        → AnswerEach certificates.now problem.now.position check
        → IsMateLine problem.now.position check joined) }

    // Its entries may stand in a text, in this order, and their positions are kept ones.
    ensures good { IfOk result (λ joined. AreGood (mate_form joined.problem) joined.entries) }
    ensures kept { IfOk result (λ joined. AreKept (positions_of joined.entries)) }

    // It lists no more than asked for. It is refused only where they list more positions than that.
    ensures count { IfOk result (λ joined. length joined.entries ≤ limit) }
    ensures too_many { IfErr result (IsJoinEnd limit (entries_in certificates.now)) }
{
    // What is said in version 1 is so in each version.
    listing_laws();
    let entries = joined_entries(alloc, problem, certificates, limit)?;
    Ok(listing(alloc, problem, joined_version(certificates), &entries)?)
}
