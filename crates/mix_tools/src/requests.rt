// What a request says: the suite, the geometry and the seed, how delays are drawn, the hops of the path, and what goes
// to the recipient. A draft is what its lines said so far.
use lab_text::SizesLine;
use mix_base::Bytes;
use packet_form::Geometry;
use sphinx_make::Draw;
use std::alloc::{AllocError, Global};
use std::marker::Model;

/// The length of a key of a reply block, in bytes.
pub const KEY: usize = 128;

/// The suite and the geometry of a request.
#[derive(Clone, Copy)]
pub struct Layout {
    /// Whether the suite is `ntru` and not `lab`.
    pub ntru: bool,
    /// That of the suite's ciphertexts.
    pub geometry: Geometry,
}

/// The first line of a request to `make`: a suite, sizes and a seed.
#[derive(Clone, Copy, Debug, PartialEq, Eq)]
pub struct SeedLine {
    pub sizes: SizesLine,
    pub seed: [u8; 32],
}

/// What is made for a path.
#[derive(Clone, Copy, Debug, PartialEq, Eq)]
pub enum Product {
    Packet,
    Block,
}

/// The suite and the geometry of a request, and the seed of its coins and delays.
#[derive(Clone, Copy)]
pub struct Head {
    pub layout: Layout,
    pub seed: [u8; 32],
}

/// For how long a hop is to hold the packet.
#[derive(Clone, Copy, Debug, PartialEq, Eq)]
pub enum Delay {
    /// Nothing is said of it.
    Unsaid,
    /// For so many milliseconds, at most three hours.
    Given { milliseconds: u32 },
    /// For as long as is drawn.
    Drawn { draw: Draw },
}

/// A hop of the path.
#[derive(Drop)]
pub struct Hop {
    pub id: [u8; 32],
    /// Its public key, of the suite's length, which decodes.
    pub key: Bytes,
    pub delay: Delay,
}

/// The hops of a path. Contracts see it as their list, whatever room it has.
#[derive(Drop)]
pub struct Hops {
    hops: Vec<Hop>,
}

impl Model for Hops {
    ghost use Rattle.std.specs.Prelude.{List};
    ghost use Rattle.mix_tools.specs.declared.requests.Hop.{Hop};

    ghost Value = { List Hop };

    ghost view = { λ h. h.hops.items };
}

impl Hops {
    ghost use Rattle.std.specs.Prelude.{◌≡◌, ◌↔◌, [], ◌∷◌, ◌++◌, ◌<◌, length, IfOk, IsTrue};
    ghost use Rattle.mix_tools.specs.Texts.{first_id};

    /// No hop. Takes no memory.
    pub fn new(alloc: Global) -> Hops
        ensures { result ≡ [] }
    {
        Hops {
            hops: Vec::new(alloc),
        }
    }

    /// How many there are.
    pub fn len(&self) -> usize
        ensures { result ≡ length self.now }
    {
        self.hops.len()
    }

    /// Whether there is none.
    pub fn is_empty(&self) -> bool
        ensures { IsTrue result ↔ (self.now ≡ []) }
    {
        self.hops.is_empty()
    }

    /// These hops and one more behind them.
    pub fn with(self, hop: Hop) -> Result<Hops, AllocError>
        ensures { IfOk result (λ hops. hops ≡ self ++ hop ∷ []) }
    {
        let Hops { mut hops } = self;
        hops.push(hop)?;
        Ok(Hops { hops })
    }

    /// The hops, lent.
    pub fn as_slice(&self) -> &[Hop]
        ensures { result.now ≡ self.now }
    {
        self.hops.as_slice()
    }

    /// The id of the first hop. Asks one.
    pub fn first_id(&self) -> &[u8; 32]
        requires { 0 < length self.now }
        ensures { result.now ≡ first_id self.now }
    {
        &self.hops[0].id
    }
}

/// A request for a packet.
#[derive(Drop)]
pub struct PacketRequest {
    pub head: Head,
    /// 1 to the geometry's number of hops.
    pub hops: Hops,
    pub recipient: [u8; 32],
    /// Of the geometry's length.
    pub body: Bytes,
    /// A reply block, of the geometry's length.
    pub block: Option<Bytes>,
}

/// A request for a reply block.
#[derive(Drop)]
pub struct BlockRequest {
    pub head: Head,
    /// 1 to the geometry's number of hops.
    pub hops: Hops,
    pub recipient: [u8; 32],
    /// The id of the reply.
    pub surb: [u8; 16],
}

/// A request to answer a reply block.
#[derive(Drop)]
pub struct AnswerRequest {
    pub layout: Layout,
    /// Of the geometry's length.
    pub block: Bytes,
    /// Of the geometry's length.
    pub body: Bytes,
}

/// A request to open what came back to a reply block.
#[derive(Drop)]
pub struct OpenRequest {
    pub layout: Layout,
    /// Keys of 128 bytes: those of the block's hops in path order, and the one of its maker's own.
    pub keys: Bytes,
    /// Of the geometry's length.
    pub payload: Bytes,
}

/// A whole request.
#[derive(Drop)]
pub enum Request {
    Packet { packet: PacketRequest },
    Block { block: BlockRequest },
    Answer { answer: AnswerRequest },
    Open { opening: OpenRequest },
}

/// What the lines of a request said so far.
#[derive(Drop)]
pub enum Draft {
    /// Nothing yet of a request to `make`.
    Making,
    /// The first line of one, perhaps how delays are drawn, and hops.
    Path {
        product: Product,
        head: Head,
        draw: Option<Draw>,
        hops: Hops,
    },
    /// Nothing yet of a request to `answer`.
    Answering,
    AnswerSizes {
        layout: Layout,
    },
    AnswerBlock {
        layout: Layout,
        block: Bytes,
    },
    /// Nothing yet of a request to `open`.
    Opening,
    OpenSizes {
        layout: Layout,
    },
    OpenKeys {
        layout: Layout,
        keys: Bytes,
    },
    /// All of a request.
    Whole {
        request: Request,
    },
}
