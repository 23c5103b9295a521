// The resource that a span shows.
ghost use Rattle.std.specs.Prelude.{◌≡◌};
ghost use Rattle.span.specs.Resources.{resource_shown};

// A span's own resource, or its name where the resource is empty.
pub fn resource_normalized<'a>(resource: &'a [u8], name: &'a [u8]) -> &'a [u8]
    ensures { result.now ≡ resource_shown resource.now name.now }
{
    if resource.is_empty() { name } else { resource }
}
