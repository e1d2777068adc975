// A heap and its metadata as they are lent once their lengths were judged right: to read from, and to write to.
ghost use Rattle.std.specs.Prelude.{◌≡◌, length};
ghost use Rattle.geometry.specs.Layout.{heap_length};
ghost use Rattle.judge.specs.Judge.{Fits};

use geometry::Layout;

// Metadata that fit their layout.
#[derive(Clone, Copy)]
pub struct Metadata<'a> {
    pub bytes: &'a [u8],
    pub layout: Layout,
    ghost fits: { Fits layout (heap_length layout) (length bytes.now) },
}

// A heap and metadata that fit their layout.
#[derive(Drop)]
pub struct Heap<'a> {
    pub bytes: &'a mut [u8],
    pub metadata: &'a mut [u8],
    pub layout: Layout,
    ghost fits: { Fits layout (length bytes.now) (length metadata.now) },
}

impl Heap<'_> {
    // The metadata, to read from.
    pub fn as_metadata(&self) -> Metadata<'_>
        ensures bytes { result.bytes.now ≡ self.now.metadata.now }
        ensures layout { result.layout ≡ self.now.layout }
    {
        Metadata {
            bytes: self.metadata,
            layout: self.layout,
        }
    }
}
