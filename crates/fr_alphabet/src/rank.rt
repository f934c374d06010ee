//! The rank of a permutation among the permutations of its letters, and back.

ghost use Rattle.std.specs.Prelude.{◌≡◌, ℕ, ◌<◌, ◌≤◌, ◌↔◌, All, IsSome, IfSome, drop, length, take};
ghost use Rattle.fr_alphabet.specs.Insertion.{in_front};
ghost use Rattle.fr_alphabet.specs.Padded.{IsPadded};
ghost use Rattle.fr_model.specs.Ranks.{smaller_in, rank, factorial};

// How many images are smaller than x.
fn count_below(x: u8, images: &[u8]) -> u32
    requires { length images.now ≤ 8 }
    ensures { result ≡ smaller_in x images.now }
{
    let mut count = 0;
    for y in images {
        if *y < x {
            count += 1;
        }
    }
    count
}

// The rank of these images.
pub(crate) fn rank_of(images: &[u8]) -> u32
    requires { length images.now ≤ 8 }
    ensures { result ≡ rank images.now }
{
    let mut total = 0u32;
    let mut factor = 1u32;
    let mut i = images.len();
    while i > 0 {
        i -= 1;
        total += count_below(images[i], &images[i + 1..]) * factor;
        factor *= (images.len() - i) as u32;
    }
    total
}

// Puts x in front of images whose first place is free. Those from x on make room for it.
fn put_first(images: &mut [u8], x: u8)
    requires free { 0 < length images.old }
    requires small { All (λ y. y < 255) (drop 1 images.old) }
    ensures { images.new ≡ in_front x (drop 1 images.old) }
{
    for y in images[1..].iter_mut() {
        if *y >= x {
            *y += 1;
        }
    }
    images[0] = x;
}

// The images of d letters with this rank, and zeros after them; None where there are no such.
pub(crate) fn images_of_rank(d: u8, r: u32) -> Option<[u8; 8]>
    requires least { 2 ≤ d }
    requires most { d ≤ 8 }
    ensures accepts { IsSome result ↔ (r < factorial d) }
    ensures padded { IfSome result (λ images. IsPadded d images) }
    ensures value { IfSome result (λ images. rank (take d images) ≡ r) }
{
    let mut images = [0; 8];
    let mut rest = r;
    // The digits of r in the factorial number system, lowest first, say of each image from the
    // last to the first how many of the images behind it are smaller.
    for n in 0..d {
        let choices = u32::from(n) + 1;
        let x = (rest % choices) as u8 + 1;
        rest /= choices;
        put_first(&mut images[(d - n - 1) as usize..d as usize], x);
    }
    if rest > 0 { None } else { Some(images) }
}
