// The names of amino acids and of their backbones' atoms (reference_tables.rs), packed: "its bytes from the highest byte
// down, then zero bytes".
#![tactic(auto)]

ghost use Rattle.std.specs.Prelude.{◌≡◌};
ghost use Rattle.machine.specs.Query.{member, tables};

const AMINO_ACIDS: [u64; 31] = [
    0x414c_4100_0000_0000, // ALA
    0x4152_4700_0000_0000, // ARG
    0x4153_4800_0000_0000, // ASH
    0x4153_4e00_0000_0000, // ASN
    0x4153_5000_0000_0000, // ASP
    0x4153_5800_0000_0000, // ASX
    0x4359_5300_0000_0000, // CYS
    0x4359_5800_0000_0000, // CYX
    0x474c_4800_0000_0000, // GLH
    0x474c_4e00_0000_0000, // GLN
    0x474c_5500_0000_0000, // GLU
    0x474c_5900_0000_0000, // GLY
    0x4849_4400_0000_0000, // HID
    0x4849_4500_0000_0000, // HIE
    0x4849_4d00_0000_0000, // HIM
    0x4849_5000_0000_0000, // HIP
    0x4849_5300_0000_0000, // HIS
    0x494c_4500_0000_0000, // ILE
    0x4c45_5500_0000_0000, // LEU
    0x4c59_4e00_0000_0000, // LYN
    0x4c59_5300_0000_0000, // LYS
    0x4d45_5400_0000_0000, // MET
    0x5048_4500_0000_0000, // PHE
    0x5052_4f00_0000_0000, // PRO
    0x5345_5200_0000_0000, // SER
    0x5448_5200_0000_0000, // THR
    0x5452_5000_0000_0000, // TRP
    0x5459_5200_0000_0000, // TYR
    0x5641_4c00_0000_0000, // VAL
    0x5345_4300_0000_0000, // SEC
    0x5059_4c00_0000_0000, // PYL
];

const BACKBONE_NAMES: [u64; 11] = [
    0x4e00_0000_0000_0000, // N
    0x4341_0000_0000_0000, // CA
    0x4300_0000_0000_0000, // C
    0x4f00_0000_0000_0000, // O
    0x4800_0000_0000_0000, // H
    0x4831_0000_0000_0000, // H1
    0x4832_0000_0000_0000, // H2
    0x4833_0000_0000_0000, // H3
    0x4841_0000_0000_0000, // HA
    0x4841_3200_0000_0000, // HA2
    0x4841_3300_0000_0000, // HA3
];

pub fn amino_acids() -> &'static [u64]
    ensures { result.now ≡ tables.residues }
{
    &AMINO_ACIDS
}

pub fn backbone_names() -> &'static [u64]
    ensures { result.now ≡ tables.atoms }
{
    &BACKBONE_NAMES
}

// Whether a name stands in a list. No branch stands between the tests of four names: so it takes less time than the list's own `contains`.
pub fn contains(names: &[u64], name: u64) -> bool
    ensures { result ≡ member names.now name }
{
    let mut rest = names;
    while let [a, b, c, d, tail @ ..] = rest {
        if (name == *a) | (name == *b) | (name == *c) | (name == *d) {
            return true;
        }
        rest = tail;
    }
    rest.contains(&name)
}
