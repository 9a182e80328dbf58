// Certificates as values.
ghost use Rattle.std.specs.Prelude.{◌≡◌, length, map};
ghost use Rattle.cert_text.specs.Certificate.{IsListing};
ghost use Rattle.mate_facts.specs.Entries.{AreApart};
ghost use Rattle.cert_text.specs.Kinds.{version_of, claim_of, problem_of, positions_in, IsKeptBy};

use crate::{Claim, Entry};
use board_core::Position;
use hand_dominance::Version;
use mate_facts::MateEntry;
use shogi_rules::Problem;
use std::marker::Model;

/// A certificate about a problem, of one [`Version`], with entries of one kind: they are in rising
/// order of the bytes of their positions' SFEN texts, and each may be listed in a certificate about
/// the problem.
#[derive(Drop)]
pub struct CertificateOf<E: Entry> {
    version: Version,
    problem: Problem,
    entries: Vec<E>,
}

impl<E: Entry> Model for CertificateOf<E> {
    ghost use Rattle.cert_text.specs.Certificate.{CertificateView, IsListing};

    ghost Value = { CertificateView E };

    ghost view = { λ c. record { version = c.version; problem = c.problem.position; entries = c.entries.items } };

    ghost invariant = { λ c. IsListing (E.form c.problem.position) (record { version = c.version; problem = c.problem.position; entries = c.entries.items }) };
}

/// The certificate of a mate: entries with a rank, the attacker's move and a position.
pub type MateCertificate = CertificateOf<MateEntry>;

/// The certificate of an escape: positions.
pub type EscapeCertificate = CertificateOf<Position>;

impl<E: Entry> CertificateOf<E> {
    /// The certificate of this version with these entries, which keep what a certificate keeps.
    pub fn new(version: Version, problem: Problem, entries: Vec<E>) -> CertificateOf<E>
        requires { IsListing (E.form problem.position)
            (record { version = version; problem = problem.position; entries = entries.items }) }
        ensures { result
            ≡ record { version = version; problem = problem.position; entries = entries.items } }
    {
        CertificateOf {
            version,
            problem,
            entries,
        }
    }

    /// Its version, which says for which positions its entries stand, beside their own. Takes no
    /// memory.
    pub fn version(&self) -> Version
        ensures { result ≡ self.now.version }
    {
        self.version
    }

    /// The problem that it is about. Takes no memory.
    pub fn problem(&self) -> &Problem
        ensures problem { result.now.position ≡ self.now.problem }
        ensures kept { IsListing (E.form self.now.problem) self.now }
    {
        &self.problem
    }

    /// Its entries, in rising order of the bytes of their positions' SFEN texts. Takes no memory.
    pub fn entries(&self) -> &[E]
        ensures entries { result.now ≡ self.now.entries }
        ensures kept { IsListing (E.form self.now.problem) self.now }
        // No two entries have one position.
        ensures apart { AreApart (map (E.form self.now.problem).at self.now.entries) }
    {
        &self.entries
    }

    /// A law: what every certificate keeps. Does nothing; whoever speaks of a certificate's entries
    /// calls it to know this.
    pub fn laws(&self)
        ensures kept { IsListing (E.form self.now.problem) self.now }
        // No two entries have one position.
        ensures apart { AreApart (map (E.form self.now.problem).at self.now.entries) }
    {
        let _entries = self.entries();
    }

    /// The same certificate in this version. Takes no memory.
    pub fn in_version(self, version: Version) -> CertificateOf<E>
        ensures { result
            ≡ record { version = version; problem = self.problem; entries = self.entries } }
    {
        CertificateOf {
            version,
            problem: self.problem,
            entries: self.entries,
        }
    }
}

/// A certificate about a problem. Its form is kept; whether it is valid is for a checker to say.
#[derive(Drop)]
pub enum Certificate {
    /// It says that the problem is a mate.
    Mate(MateCertificate),
    /// It says that the problem is no mate.
    Escape(EscapeCertificate),
}

impl Certificate {
    /// The version that it is of. Takes no memory.
    pub fn version(&self) -> Version
        ensures { result ≡ version_of self.now }
    {
        match self {
            Certificate::Mate(mate) => mate.version(),
            Certificate::Escape(escape) => escape.version(),
        }
    }

    /// The problem that it is about. Takes no memory.
    pub fn problem(&self) -> &Problem
        ensures { result.now.position ≡ problem_of self.now }
    {
        match self {
            Certificate::Mate(mate) => mate.problem(),
            Certificate::Escape(escape) => escape.problem(),
        }
    }

    /// What it claims of its problem. Takes no memory.
    pub fn claim(&self) -> Claim
        ensures { result ≡ claim_of self.now }
    {
        match self {
            Certificate::Mate(_) => Claim::Mate,
            Certificate::Escape(_) => Claim::Escape,
        }
    }

    /// How many entries it lists. Takes no memory.
    pub fn count(&self) -> usize
        ensures { result ≡ length (positions_in self.now) }
    {
        match self {
            Certificate::Mate(mate) => mate.entries().len(),
            Certificate::Escape(escape) => escape.entries().len(),
        }
    }

    /// A law: what every certificate keeps. Does nothing; whoever speaks of a certificate's entries
    /// calls it to know this.
    pub fn laws(&self)
        ensures kept { IsKeptBy self.now }
        // No position is listed twice.
        ensures apart { AreApart (positions_in self.now) }
    {
        match self {
            Certificate::Mate(mate) => mate.laws(),
            Certificate::Escape(escape) => escape.laws(),
        }
    }
}
